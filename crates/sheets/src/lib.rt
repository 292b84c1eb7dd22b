// The calls that coach units and reviewers put to a sheet: its value at grades, whether a phrase is an implicant, its primes and cover, and the primes of joins, meets and complements.
#![tactic(auto)]

ghost use Rattle.sheets.specs.Value.{ValuePromise};
ghost use Rattle.sheets.specs.Implicant.{ImplicantPromise};
ghost use Rattle.sheets.specs.Listing.{ListPromise, JoinPromise, MeetPromise, ComplementPromise};
ghost use Rattle.sheets.specs.Told.{value_told, verdict_told, count_told};

pub mod answer;
mod cell;
mod cover;
mod first;
mod grade;
mod listing;
mod map;
mod refusal;
mod sheet;
mod vector;

pub use answer::{Asked, Listed, Valued, count_told, value_told, verdict_told};
use grade::Grades;
pub use refusal::Refusal;
use sheet::Sheet;

// The value of the sheet at the grades. Scale and grades come side by side, as document 01 lends them.
pub fn value(n: usize, sheet: &[u16], scale: u16, grades: &[u16]) -> Result<u16, Refusal>
    ensures { ValuePromise n sheet.now scale grades.now (value_told result) sheet.exit.now grades.exit.now }
{
    let sheet = Sheet::new(n, sheet)?;
    let grades = Grades::new(sheet.n, scale, grades)?;
    Ok(grades.of_sheet(sheet.phrases))
}

// Whether the phrase is an implicant of the sheet: none where it is, else the lowest vector of scale 2 at which it is above the sheet.
pub fn implicant(n: usize, sheet: &[u16], phrase: u16) -> Result<Option<u16>, Refusal>
    ensures { ImplicantPromise n sheet.now phrase (verdict_told result) sheet.exit.now }
{
    let sheet = Sheet::new(n, sheet)?;
    sheet.check(phrase)?;
    Ok(vector::lowest(&sheet, phrase))
}

// The sheet's primes by rising code, each with its flag: 1 where document 01's walk leaves it in the cover. Gives how many there are.
// Codes and flags go to two buffers, as document 01 lends them.
pub fn list(n: usize, sheet: &[u16], codes: &mut [u16], flags: &mut [u8]) -> Result<usize, Refusal>
    ensures { ListPromise n sheet.now codes.old flags.old (count_told result) sheet.exit.now codes.new flags.new }
{
    let sheet = Sheet::new(n, sheet)?;
    let primes = map::primes(sheet.n, &map::of_sheet(&sheet));
    let count = listing::fit(&primes, codes.len().min(flags.len()))?;
    primes.read(codes);
    let listed = &codes[..count];
    let kept = cover::walk(sheet.n, &primes, listed);
    listing::flag(&kept, listed, flags);
    Ok(count)
}

// The prime list of the larger of two sheets. Gives how many there are.
pub fn join(n: usize, first: &[u16], second: &[u16], codes: &mut [u16]) -> Result<usize, Refusal>
    ensures { JoinPromise n first.now second.now codes.old (count_told result) first.exit.now second.exit.now codes.new }
{
    let (first, second) = Sheet::pair(n, first, second)?;
    let within = map::of_both_sheets(&first, &second);
    listing::publish(&map::primes(first.n, &within), codes)
}

// The prime list of the smaller of two sheets. Gives how many there are. It shares with `join` all that the two have in common.
pub fn meet(n: usize, first: &[u16], second: &[u16], codes: &mut [u16]) -> Result<usize, Refusal>
    ensures { MeetPromise n first.now second.now codes.old (count_told result) first.exit.now second.exit.now codes.new }
{
    let (first, second) = Sheet::pair(n, first, second)?;
    let within = map::of_sheet(&first).both(&map::of_sheet(&second));
    listing::publish(&map::primes(first.n, &within), codes)
}

// The prime list of the sheet's complement. Gives how many there are.
pub fn complement(n: usize, sheet: &[u16], codes: &mut [u16]) -> Result<usize, Refusal>
    ensures { ComplementPromise n sheet.now codes.old (count_told result) sheet.exit.now codes.new }
{
    let sheet = Sheet::new(n, sheet)?;
    let within = map::of_sheet(&sheet).exchange().others();
    listing::publish(&map::primes(sheet.n, &within), codes)
}
