// Exchanging the digits 0 and 3 of the codes.
ghost use Rattle.std.specs.Prelude.{◌≡◌, ℕ, ◌<◌, slice_index};
ghost use Rattle.fuzzy.specs.Phrase.{has};
ghost use Rattle.fuzzy.proofs.Within.{exchange};
ghost use Rattle.rows.specs.Pass.{Exchanged};

use crate::{Marks, made};

// The bits of a row whose last digit is 0.
const NONE_0: u64 = 0x1111_1111_1111_1111;

// The bits of a row whose second digit is 0.
const NONE_1: u64 = 0x000f_000f_000f_000f;

// The bits of a row whose first digit is 0.
const NONE_2: u64 = 0x0000_0000_0000_ffff;

impl Marks {
    // The codes that are marked once their digits 0 and 3 are exchanged: the rows change places, and so do the bits of each.
    pub fn exchange(&self) -> Marks
        ensures { Exchanged self.now.rows result.rows }
    {
        // A pass for the bits and one for the rows: the compiler takes several rows at once in the first, and unrolls the second.
        placed(&made::each(|i| row(self.rows[i])))
    }
}

// The rows in their new places, four a turn, so that the compiler unrolls the loop. The four differ in their last digit alone, which is exchanged for
// 3, 1, 2 and 0.
fn placed(marks: &Marks) -> Marks
    ensures { (i : ℕ) → i < 64 → slice_index result.rows i ≡ slice_index marks.now.rows (exchange 3 i) }
{
    let mut rows = [0; 64];
    for four in 0..16 {
        let to = 4 * four;
        let from = partner(to);
        rows[to] = marks.rows[from];
        rows[to + 1] = marks.rows[from - 2];
        rows[to + 2] = marks.rows[from - 1];
        rows[to + 3] = marks.rows[from - 3];
    }
    Marks { rows }
}

// The bits of a row: those with digit 0 that differ from their partners with digit 3, which are `odd`, are flipped, and so are the partners.
fn row(row: u64) -> u64
    ensures { (c : ℕ) → c < 64 → has result c ≡ has row (exchange 3 c) }
{
    let odd = ((row >> 48) ^ row) & NONE_2;
    let row = row ^ odd ^ (odd << 48);
    let odd = ((row >> 12) ^ row) & NONE_1;
    let row = row ^ odd ^ (odd << 12);
    let odd = ((row >> 3) ^ row) & NONE_0;
    row ^ odd ^ (odd << 3)
}

// A row's number, its three digits exchanged: every bit is flipped, but those of a digit with unlike bits.
fn partner(i: usize) -> usize
    requires { i < 64 }
    ensures { (result < 64) × (result ≡ exchange 3 i) }
{
    let unlike = (i ^ (i >> 1)) & 0x15;
    i ^ 63 ^ (3 * unlike)
}
