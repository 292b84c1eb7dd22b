// Document 01's cases C1 and C3 to C11, and two sheets that fix the cover's walk. Each room has an entry more than is needed.
use crate::pair::{Join, Meet};
use crate::show;
use std::io;

// C1 and C3 to C8: the list with its cover.
pub(crate) fn lists(rt: &impl Print) -> io::Result<()> {
    show::list(rt, "C1", 2, &[10, 9], 4)?;
    show::list(rt, "C3", 2, &[8, 4], 4)?;
    show::list(rt, "C4", 3, &[6, 41, 53, 58], 6)?;
    show::list(rt, "C5", 3, &[46, 29, 58, 22], 5)?;
    show::list(rt, "C6", 3, &[56, 55], 3)?;
    show::list(rt, "C7", 3, &[36, 24, 40, 20, 3], 8)?;
    show::list(rt, "C8-empty", 1, &[], 1)?;
    show::list(rt, "C8-constant", 1, &[0], 2)
}

// The first fixes ties and that one phrase is struck after the other, the second that most literals come first.
pub(crate) fn walks(rt: &impl Print) -> io::Result<()> {
    show::list(rt, "walk-ties", 3, &[5, 10, 52], 7)?;
    show::list(rt, "walk-most-literals", 4, &[39, 72, 82, 164], 10)
}

// C9 to C11: complement, and that list's complement; meet; join.
pub(crate) fn operations(rt: &impl Print) -> io::Result<()> {
    show::complement(rt, "C9", 2, &[10, 9], 3)?;
    show::complement(rt, "C9-back", 2, &[3, 4], 4)?;
    show::named::<Meet>(rt, "C10", 2, &[8], &[2], 2)?;
    show::named::<Join>(rt, "C11", 2, &[8], &[4], 4)
}
