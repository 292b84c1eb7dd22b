// Several refusals at once: document 01's order decides which one is given.
use crate::show;
use std::io;

// The question's order: 1, 2, 3, 12.
pub(crate) fn questions(rt: &impl Print) -> io::Result<()> {
    show::implicant(rt, "asked-1-before-2", 7, &[65535; 4097], 65535)?;
    show::implicant(rt, "asked-2-before-3", 2, &[65535; 4097], 8)?;
    show::implicant(rt, "asked-3-before-12", 2, &[10, 16], 16)
}

// The value's order: 1, 2, 3, 5, 6, 7.
pub(crate) fn values(rt: &impl Print) -> io::Result<()> {
    show::value(rt, "value-1-before-2", 7, &[65535; 4097], 1, &[2])?;
    show::value(rt, "value-2-before-3", 2, &[65535; 4097], 10, &[4, 6])?;
    show::value(rt, "value-3-before-5", 2, &[10, 16], 1, &[0, 1])?;
    show::value(rt, "value-5-before-6", 2, &[10, 9], 1001, &[4])?;
    show::value(rt, "value-6-before-7", 2, &[10, 9], 10, &[4, 6, 11])
}
