// Cells: the phrases with the same set of pairs, and the points that they cover. A point is a full code with just these pairs: below 64, a bit for each
// variable that is plain, and none for the pairs. A phrase with pairs is an implicant where each of its points has some phrase within it.
ghost use Rattle.std.specs.Prelude.{◌≡◌, ◌↔◌, ℕ, List, ◌<◌};
ghost use Rattle.fuzzy.specs.Phrase.{has};
ghost use Rattle.sheets.specs.Cell.{pairs_of, Agrees, AgreesAt, Owned, Under};

// The points that have bit j, for j from 0 to 5.
const HAS: [u64; 6] = [
    0xaaaa_aaaa_aaaa_aaaa,
    0xcccc_cccc_cccc_cccc,
    0xf0f0_f0f0_f0f0_f0f0,
    0xff00_ff00_ff00_ff00,
    0xffff_0000_ffff_0000,
    0xffff_ffff_0000_0000,
];

// The set of a phrase's pairs: bit j for the variable whose digit is worth 4 ^ j.
pub(crate) fn pairs(phrase: u16) -> usize
    requires { phrase < 4096 }
    ensures set { result ≡ pairs_of phrase }
    ensures few { result < 64 }
{
    let pairs = phrase & (phrase >> 1) & 0x555;
    let pairs = (pairs | (pairs >> 1)) & 0x333;
    let pairs = (pairs | (pairs >> 2)) & 0xf0f;
    ((pairs | (pairs >> 4)) & 0x3f) as usize
}

// The points that a phrase covers: those with bit j where it has x, without it where it has ~x or a pair.
pub(crate) fn points(phrase: u16) -> u64
    ensures { (x : ℕ) → x < 64 → (has result x ≡ 1) ↔ Agrees phrase x }
{
    let mut points = u64::MAX;
    for j in 0..6usize {
        points &= side((phrase >> (2 * j)) & 3, HAS[j]);
    }
    points
}

// The points that agree with a digit, a number, as it is in the definitions.
fn side(digit: u16, plain: u64) -> u64
    requires { digit < 4 }
    ensures { (x : ℕ) → x < 64 → (has result x ≡ 1) ↔ AgreesAt digit (has plain x) }
{
    match digit {
        0 => u64::MAX,
        2 => plain,
        _ => plain ^ u64::MAX,
    }
}

// For each set of pairs the points that phrases with fewer pairs are within, from the points that phrases cover. Without one of its pairs a point is one
// of two, with that variable plain or not.
pub(crate) fn below(own: &[u64; 64]) -> [u64; 64]
    ensures { (L : List ℕ) → Owned L own.now → Under L result }
{
    let mut below = [0; 64];
    for cell in 0..64 {
        let mut points = 0;
        for j in 0..6usize {
            let pair = 1usize << j;
            if cell & pair != 0 {
                let fewer = own[cell - pair] | below[cell - pair];
                points |= fewer | (fewer >> pair);
            }
        }
        below[cell] = points;
    }
    below
}
