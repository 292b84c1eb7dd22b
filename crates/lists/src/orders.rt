// Several refusals at once: document 01's order decides which one is given.
use crate::pair::Pair;
use crate::show;
use std::io;

// One sheet: 1, 2, 3, 4.
pub(crate) fn one_sheet(rt: &impl Print) -> io::Result<()> {
    show::list(rt, "list-1-before-2", 7, &[65535; 4097], 0)?;
    show::list(rt, "list-2-before-3", 2, &[65535; 4097], 0)?;
    show::list(rt, "list-3-before-4", 2, &[10, 9, 16], 0)?;
    show::complement(rt, "complement-1-before-2", 7, &[65535; 4097], 0)?;
    show::complement(rt, "complement-2-before-3", 2, &[65535; 4097], 0)?;
    show::complement(rt, "complement-3-before-4", 2, &[10, 9, 16], 0)
}

// Two sheets, both at fault, in each order: 1; 2 of the first, 2 of the second; 3 of the first, 3 of the second; 4.
pub(crate) fn two_sheets<P: Pair>(rt: &impl Print) -> io::Result<()> {
    let long = [65535; 4097];
    let longer = [65535; 4098];
    show::pair::<P>(rt, "1-before-2", 7, &long, &longer, 0)?;
    show::pair::<P>(rt, "2-and-2", 2, &long, &longer, 0)?;
    show::pair::<P>(rt, "2-and-2-swapped", 2, &longer, &long, 0)?;
    show::pair::<P>(rt, "2-and-3", 2, &[0; 4097], &[16], 0)?;
    show::pair::<P>(rt, "3-and-2", 2, &[16], &[0; 4097], 0)?;
    show::pair::<P>(rt, "3-and-3", 2, &[10, 16], &[16], 0)?;
    show::pair::<P>(rt, "3-and-3-swapped", 2, &[16], &[10, 16], 0)?;
    show::pair::<P>(rt, "3-before-4", 2, &[10], &[9, 16], 0)
}
