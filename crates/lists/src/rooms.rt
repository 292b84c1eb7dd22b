// The room lent: just enough, one short, none for an empty list, and more than is needed.
use crate::pair::{Join, Meet};
use crate::show;
use std::io;

// C1's list needs three entries, and the room is the shorter of the two buffers.
pub(crate) fn lists(rt: &impl Print) -> io::Result<()> {
    show::list(rt, "C1-room-3", 2, &[10, 9], 3)?;
    show::list(rt, "C1-room-2", 2, &[10, 9], 2)?;
    show::list(rt, "C1-room-0", 2, &[10, 9], 0)?;
    show::list_into(rt, "list-codes-shorter-done", 2, &[10, 9], 3, 5)?;
    show::list_into(rt, "list-codes-shorter", 2, &[10, 9], 2, 3)?;
    show::list_into(rt, "list-flags-shorter-done", 2, &[10, 9], 5, 3)?;
    show::list_into(rt, "list-flags-shorter", 2, &[10, 9], 3, 2)?;
    show::list(rt, "list-room-larger", 2, &[10, 9], 8)
}

// An empty list fits no room at all.
pub(crate) fn empty(rt: &impl Print) -> io::Result<()> {
    show::list(rt, "list-empty-room-0", 1, &[], 0)?;
    show::pair::<Join>(rt, "empty-room-0", 1, &[], &[], 0)?;
    show::pair::<Meet>(rt, "empty-room-0", 1, &[2], &[], 0)?;
    show::complement(rt, "complement-empty-room-0", 1, &[0], 0)
}

// The other calls' rooms, over C11, C10 and C9.
pub(crate) fn operations(rt: &impl Print) -> io::Result<()> {
    show::pair::<Join>(rt, "room-3", 2, &[8], &[4], 3)?;
    show::pair::<Join>(rt, "room-2", 2, &[8], &[4], 2)?;
    show::pair::<Join>(rt, "room-larger", 2, &[8], &[4], 8)?;
    show::pair::<Meet>(rt, "room-1", 2, &[8], &[2], 1)?;
    show::pair::<Meet>(rt, "room-0", 2, &[8], &[2], 0)?;
    show::pair::<Meet>(rt, "room-larger", 2, &[8], &[2], 8)?;
    show::complement(rt, "complement-room-2", 2, &[10, 9], 2)?;
    show::complement(rt, "complement-room-1", 2, &[10, 9], 1)?;
    show::complement(rt, "complement-room-larger", 2, &[10, 9], 8)
}
