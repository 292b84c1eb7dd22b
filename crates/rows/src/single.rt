// One code among the marks.
ghost use Rattle.rows.specs.Pass.{Removed, Held, Covered};

use crate::{CODES, Marks, bits};

impl Marks {
    // Takes a code out of the marked ones, where it is marked.
    pub fn unmark(&mut self, code: u16)
        ensures { Removed self.old.rows code self.new.rows }
    {
        if code < CODES {
            let row = code as usize / 64;
            self.rows[row] = bits::without(self.rows[row], 1u64 << (code % 64));
        }
    }

    // Whether the code is marked; no for 4,096 and above.
    pub fn holds(&self, code: u16) -> bool
        ensures { Held self.now.rows code result }
    {
        if code >= CODES {
            return false;
        }
        let row = self.rows[code as usize / 64];
        (row >> (code % 64)) & 1 != 0
    }

    // Whether some marked code has all literals of the code; no for 4,096 and above. Its row has all of the code's row, so i goes through the
    // rows that do, which are 64 halved for each literal of the code's row: the next one after i is i + 1 with the literals that it lost.
    pub fn covers(&self, code: u16) -> bool
        ensures { Covered self.now.rows code result }
    {
        if code < CODES {
            let high = code as usize / 64;
            let mut found = 0;
            let mut i = high;
            for _ in 0..64usize >> high.count_ones() {
                found |= self.rows[i];
                i = (i + 1) | high;
            }
            found & bits::up(1u64 << (code % 64)) != 0
        } else {
            false
        }
    }
}
