// Within maps of sheets over six variables, and the marks of the primes that they give.
ghost use Rattle.std.specs.Prelude.{◌++◌};
ghost use Rattle.sheets.specs.Maps.{Maps, EitherMaps, PrimesOf};

use crate::sheet::{Sheet, Variables};
use rows::Marks;

// The codes that have some phrase of the sheet within them.
pub(crate) fn of_sheet(sheet: &Sheet) -> Marks
    ensures { Maps sheet.now.phrases.now result.rows }
{
    Marks::of(sheet.phrases).close_up()
}

// The codes that have some phrase of either sheet within them: the or of the two maps, from both sheets' marks, closed once.
pub(crate) fn of_both_sheets(first: &Sheet, second: &Sheet) -> Marks
    ensures together { Maps (first.now.phrases.now ++ second.now.phrases.now) result.rows }
    ensures either { EitherMaps first.now.phrases.now second.now.phrases.now result.rows }
{
    Marks::of(first.phrases)
        .either(&Marks::of(second.phrases))
        .close_up()
}

// The primes over n variables of what has the map: the least codes that no simple or full code outside it subsumes.
pub(crate) fn primes(n: Variables, within: &Marks) -> Marks
    ensures { PrimesOf n.count within.now.rows result.rows }
{
    let no_implicants = within.outside().close_down();
    no_implicants.others().least().cut(n.count)
}
