// Puts document 01's cases and edges to the four calls of `sheets` that give a list and prints the answers, one line a case.
// After the case's name: number, detail and count; every code that was lent, those after the list behind a bar; and for `list`, after `flags`, every flag in the same way.
#![tactic(auto)]

mod codes;
mod known;
mod lengths;
mod orders;
mod pair;
mod repeats;
mod rooms;
mod show;
mod variables;

use pair::{Join, Meet};
use std::io;

fn main(rt: HostRuntime) -> io::Result<()> {
    known::lists(&rt)?;
    known::walks(&rt)?;
    known::operations(&rt)?;
    rooms::lists(&rt)?;
    rooms::empty(&rt)?;
    rooms::operations(&rt)?;
    variables::lists(&rt)?;
    variables::pairs::<Join>(&rt, 4, 11)?;
    variables::pairs::<Meet>(&rt, 2, 10)?;
    variables::complements(&rt)?;
    lengths::one_sheet(&rt)?;
    lengths::two_sheets::<Join>(&rt, &[])?;
    lengths::two_sheets::<Meet>(&rt, &[0])?;
    codes::one_sheet(&rt)?;
    codes::joins(&rt)?;
    codes::meets(&rt)?;
    orders::one_sheet(&rt)?;
    orders::two_sheets::<Join>(&rt)?;
    orders::two_sheets::<Meet>(&rt)?;
    repeats::one_sheet(&rt)?;
    repeats::two_sheets(&rt)
}
