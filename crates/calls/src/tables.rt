// Phrases of six variables, and the sheets at the limit of 4,096 phrases.
ghost use Rattle.std.specs.Prelude.{◌≡◌, length};

// x1·x2·x3·x4·x5·x6
pub(crate) const VARIABLES: u16 = 2730;

// ~x1·~x2·~x3·~x4·~x5·~x6
pub(crate) const COMPLEMENTS: u16 = 1365;

// All twelve literals: the last code of six variables.
pub(crate) const PAIRS: u16 = 4095;

// As many phrases as a sheet may have, the last of them unlike the others. The other program has one of its own: the two share no crate, and one for
// six lines is no plainer.
pub(crate) fn full() -> [u16; 4096]
    ensures { 4096 ≡ length result }
{
    let mut sheet = [PAIRS; 4096];
    sheet[4095] = VARIABLES;
    sheet
}
