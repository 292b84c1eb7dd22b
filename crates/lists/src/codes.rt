// Codes at two variables: 15 is taken, 16 refused with its index. At six variables 4,095 is taken, 4,096 refused.
use crate::pair::{Join, Meet, Pair};
use crate::show;
use std::io;

// The list and the complement.
pub(crate) fn one_sheet(rt: &impl Print) -> io::Result<()> {
    show::list(rt, "list-code-15", 2, &[10, 15], 2)?;
    show::list(rt, "list-code-16", 2, &[10, 9, 16, 15, 17], 2)?;
    show::list(rt, "list-code-4095", 6, &[4095], 2)?;
    show::list(rt, "list-code-4096", 6, &[0, 4096], 2)?;
    show::complement(rt, "complement-code-15", 2, &[15], 5)?;
    show::complement(rt, "complement-code-16", 2, &[10, 9, 16, 15, 17], 2)
}

// The join, the code in the first sheet or in the second.
pub(crate) fn joins(rt: &impl Print) -> io::Result<()> {
    show::pair::<Join>(rt, "code-15-first", 2, &[10, 15], &[9], 4)?;
    show::pair::<Join>(rt, "code-15-second", 2, &[10], &[9, 15], 4)?;
    foreign::<Join>(rt)
}

// The meet in the same way.
pub(crate) fn meets(rt: &impl Print) -> io::Result<()> {
    show::pair::<Meet>(rt, "code-15-first", 2, &[15], &[8], 2)?;
    show::pair::<Meet>(rt, "code-15-second", 2, &[8], &[15], 2)?;
    foreign::<Meet>(rt)
}

// The code that is refused.
fn foreign<P: Pair>(rt: &impl Print) -> io::Result<()> {
    show::pair::<P>(rt, "code-16-first", 2, &[10, 16], &[9], 2)?;
    show::pair::<P>(rt, "code-16-second", 2, &[10], &[9, 15, 16], 2)
}
