// Marks below a power of 4.
ghost use Rattle.std.specs.Prelude.{◌≡◌, ◌↔◌, ℕ, ◌+◌, ◌*◌, ◌^◌, ◌≤◌, ◌<◌};
ghost use Rattle.fuzzy.specs.Phrase.{has};
ghost use Rattle.rows.specs.Pass.{Cut};

use crate::Marks;

impl Marks {
    // Only the codes of n variables stay marked; with six or more nothing changes.
    pub fn cut(&self, n: usize) -> Marks
        ensures { Cut self.now.rows n result.rows }
    {
        let mut rows = self.rows;
        rows[0] &= first_row(n);
        for i in row_count(n)..64 {
            rows[i] = 0;
        }
        Marks { rows }
    }
}

// The codes of n variables in the first row.
fn first_row(n: usize) -> u64
    ensures { (k : ℕ) → k < 64 → (has result k ≡ 1) ↔ (k < 4 ^ n) }
{
    match n {
        0 => 1,
        1 => 0xf,
        2 => 0xffff,
        _ => u64::MAX,
    }
}

// How many rows have codes of n variables.
fn row_count(n: usize) -> usize
    ensures { (0 < result) × (result ≤ 64) × ((j k : ℕ) → 0 < j → j < 64 → k < 64 → (j * 64 + k < 4 ^ n) ↔ (j < result)) }
{
    match n {
        0..=3 => 1,
        4 => 4,
        5 => 16,
        _ => 64,
    }
}
