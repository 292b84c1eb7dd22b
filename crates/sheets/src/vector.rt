// Vectors of scale 2 by number: their literals as codes, and the lowest at which a phrase is above a sheet.
ghost use Rattle.std.specs.Prelude.{◌≡◌, ℕ, ◌-◌, ◌^◌, ◌<◌, max};
ghost use Rattle.fuzzy.specs.Phrase.{has};
ghost use Rattle.fuzzy.specs.Grade.{phrase_value};
ghost use Rattle.fuzzy.specs.Vector.{vector, lowest};
ghost use Rattle.fuzzy.proofs.Reach.{reach_digit, reach};
ghost use Rattle.fuzzy.proofs.Within.{flip};
ghost use Rattle.sheets.specs.Implicant.{Lowest};

use crate::sheet::{Sheet, Variables};

// The lowest vector at which the phrase is above the sheet, if there is one.
pub(crate) fn lowest(sheet: &Sheet, phrase: u16) -> Option<u16>
    requires { phrase < 4 ^ sheet.now.n.count }
    ensures { Lowest sheet.now.n.count sheet.now.phrases.now phrase result }
{
    'vectors: for v in 0..sheet.n.vectors() {
        let level = level(sheet.n, v, phrase);
        if level & phrase == phrase {
            for q in sheet.phrases {
                if level & *q == *q {
                    continue 'vectors;
                }
            }
            return Some(v);
        }
    }
    None
}

// The literals that are at least 2 at the vector if the phrase is 2 there, else those that are at least 1.
fn level(n: Variables, v: u16, phrase: u16) -> u16
    requires { phrase < 4 ^ n.count }
    ensures { result ≡ reach 2 (max 1 (phrase_value 2 n.count phrase (vector n.count v))) (vector n.count v) }
{
    let half = reached(n, v);
    let whole = unpaired(half);
    if whole & phrase == phrase {
        return whole;
    }
    half
}

// The code of the literals that are at least 1 at the vector.
fn reached(n: Variables, v: u16) -> u16
    ensures { result ≡ reach 2 1 (vector n.count v) }
{
    let mut code = 0;
    let mut rest = v;
    let mut place = 1;
    for _ in 0..n.count {
        code += half_digit(rest % 3) * place;
        rest /= 3;
        place *= 4;
    }
    code
}

// The digit of the literals that are at least 1 at the grade, both numbers, as they are in the definitions.
fn half_digit(grade: u16) -> u16
    requires { grade < 3 }
    ensures { result ≡ reach_digit 2 1 grade }
{
    match grade {
        0 => 1,
        1 => 3,
        _ => 2,
    }
}

// The code with its pairs taken out; 0x555 has the complements' literals.
fn unpaired(code: u16) -> u16
    requires { code < 4 ^ 6 }
    ensures { (result < 4 ^ 6) × ((k : ℕ) → has result k ≡ has code k - has code (flip k)) }
{
    let pairs = code & (code >> 1) & 0x555;
    code ^ (pairs | (pairs + pairs))
}
