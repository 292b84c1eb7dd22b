// How many phrases: 4,096 are taken, and only the last of them is unlike the others; 4,097 are refused.
ghost use Rattle.std.specs.Prelude.{◌≡◌, length};

use crate::pair::Pair;
use crate::show;
use std::io;

// x1·x2·x3·x4·x5·x6
const VARIABLES: u16 = 2730;

// ~x1·~x2·~x3·~x4·~x5·~x6
const COMPLEMENTS: u16 = 1365;

// The list and the complement.
pub(crate) fn one_sheet(rt: &impl Print) -> io::Result<()> {
    show::list(rt, "list-4096-phrases", 6, &full(), 9)?;
    show::list(rt, "list-4097-phrases", 6, &[0; 4097], 2)?;
    show::complement(rt, "complement-4096-phrases", 6, &full(), 37)?;
    show::complement(rt, "complement-4097-phrases", 6, &[0; 4097], 2)
}

// The join or the meet, the long sheet first or second, beside a sheet that leaves the long one's primes as they are.
pub(crate) fn two_sheets<P: Pair>(rt: &impl Print, beside: &[u16]) -> io::Result<()> {
    show::pair::<P>(rt, "4096-first", 6, &full(), beside, 9)?;
    show::pair::<P>(rt, "4096-second", 6, beside, &full(), 9)?;
    show::pair::<P>(rt, "4096-both", 6, &full(), &full(), 9)?;
    show::pair::<P>(rt, "4097-first", 6, &[0; 4097], &[0], 2)?;
    show::pair::<P>(rt, "4097-second", 6, &[0], &[0; 4097], 2)
}

// As many phrases as a sheet may have, the last of them unlike the others. The other program has one of its own: the two share no crate, and one for
// six lines is no plainer.
fn full() -> [u16; 4096]
    ensures { 4096 ≡ length result }
{
    let mut sheet = [COMPLEMENTS; 4096];
    sheet[4095] = VARIABLES;
    sheet
}
