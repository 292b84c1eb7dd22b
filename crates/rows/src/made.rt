// Marks made row by row.
ghost use Rattle.std.specs.Prelude.{ℕ, ◌<◌, slice_index};

use crate::Marks;

// The marks whose rows the function gives. The library's `array::from_fn` was tried in its place: it tells its elements by 64 nested pairs,
// and the proof did not close.
pub(crate) fn each<F: Fn(usize) -> u64>(row: F) -> Marks
    requires { (i : ℕ) → i < 64 → F.pre row i }
    ensures { (i : ℕ) → i < 64 → F.post row i (slice_index result.rows i) }
{
    let mut rows = [0; 64];
    for i in 0..64 {
        rows[i] = row(i);
    }
    Marks { rows }
}
