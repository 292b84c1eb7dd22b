// Passes from row to row: row r has literal 6 + k of its codes where bit k of r is set.
ghost use Rattle.std.specs.Prelude.{◌≡◌, ℕ, ◌+◌, ◌^◌, ◌<◌, max, slice_index};
ghost use Rattle.fuzzy.specs.Phrase.{has};
ghost use Rattle.rows.specs.Square.{square};
ghost use Rattle.rows.specs.Stage.{raise, lower};

use crate::Marks;

// The marks, with themselves one literal higher.
pub(crate) fn raise(marks: &mut Marks, k: usize)
    requires { k < 6 }
    ensures { (c : ℕ) → c < 4096 → square marks.new.rows c ≡ max (square marks.old.rows c) (raise (6 + k) (square marks.old.rows) c) }
{
    pairs(marks, k, |_, low, high| (low, high | low));
}

// The marks, with the given ones one literal higher.
pub(crate) fn raise_from(marks: &mut Marks, from: &Marks, k: usize)
    requires { k < 6 }
    ensures { (c : ℕ) → c < 4096 → square marks.new.rows c ≡ max (square marks.old.rows c) (raise (6 + k) (square from.now.rows) c) }
{
    pairs(marks, k, |i, low, high| (low, high | from.rows[i]));
}

// The marks, with themselves one literal lower.
pub(crate) fn lower(marks: &mut Marks, k: usize)
    requires { k < 6 }
    ensures { (c : ℕ) → c < 4096 → square marks.new.rows c ≡ max (square marks.old.rows c) (lower (6 + k) (square marks.old.rows) c) }
{
    pairs(marks, k, |_, low, high| (low | high, high));
}

// Has the pass change each two rows that differ in literal 6 + k alone. Two rows change at once, so they go by number; it takes the number of the row without the literal, too. There is no test
// within, so that the compiler can pass over several rows at once.
fn pairs<F: Fn(usize, u64, u64) -> (u64, u64)>(marks: &mut Marks, k: usize, pass: F)
    requires few { k < 6 }
    requires passes { (i low high : ℕ) → i < 64 → F.pre pass i low high }
    ensures { (i : ℕ) → i < 64 → has i k ≡ 0
        → F.post pass i (slice_index marks.old.rows i) (slice_index marks.old.rows (i + 2 ^ k)) (slice_index marks.new.rows i, slice_index marks.new.rows (i + 2 ^ k)) }
{
    let step = 1usize << k;
    for high in 0..32 >> k {
        for low in 0..step {
            let i = high * 2 * step + low;
            let (without, with) = pass(i, marks.rows[i], marks.rows[i + step]);
            marks.rows[i] = without;
            marks.rows[i + step] = with;
        }
    }
}
