// Sheets may hold a phrase more than once: the answers are those of C1's sheet 10, 9.
use crate::pair::{Join, Meet};
use crate::show;
use std::io;

// One sheet.
pub(crate) fn one_sheet(rt: &impl Print) -> io::Result<()> {
    show::list(rt, "list-repeats", 2, &[9, 10, 9, 9], 4)?;
    show::complement(rt, "complement-repeats", 2, &[9, 10, 9, 9], 3)
}

// Two sheets, each with repeats and with phrases of the other.
pub(crate) fn two_sheets(rt: &impl Print) -> io::Result<()> {
    show::pair::<Join>(rt, "repeats", 2, &[9, 9], &[10, 9, 10], 4)?;
    show::pair::<Meet>(rt, "repeats", 2, &[9, 10, 9], &[10, 10, 9], 4)
}
