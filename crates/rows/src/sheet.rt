// Marking the codes of a sheet.
ghost use Rattle.std.specs.Prelude.{ℕ, ◌≤◌, ◌<◌, length, slice_index};
ghost use Rattle.rows.specs.Pass.{OfSheet};

use crate::{CODES, Marks};

impl Marks {
    // The marks of the sheet's codes; those of 4,096 or more are left out. As a rule there are none, and then no code is looked at for it.
    pub fn of(sheet: &[u16]) -> Marks
        ensures { OfSheet sheet.now result.rows }
    {
        let mut rows = [0u64; 64];
        let all_fit = greatest(sheet) < CODES;
        for code in sheet {
            if all_fit || *code < CODES {
                rows[(code / 64 % 64) as usize] |= 1u64 << (code % 64);
            }
        }
        Marks { rows }
    }
}

// A number that no entry is above.
fn greatest(sheet: &[u16]) -> u16
    ensures { (j : ℕ) → j < length sheet.now → slice_index sheet.now j ≤ result }
{
    let mut most = 0;
    for code in sheet {
        most = most.max(*code);
    }
    most
}
