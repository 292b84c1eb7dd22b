// Counting the marked codes and writing them as a list.
ghost use Rattle.std.specs.Prelude.{◌≡◌, ◌+◌, ◌≤◌, length};
ghost use Rattle.std.proofs.lemmas.List.Edits.{sets};
ghost use Rattle.rows.specs.Read.{marks_of, row_marks, read_into};

use crate::Marks;

impl Marks {
    // How many codes are marked.
    pub fn count(&self) -> usize
        ensures { result ≡ length (marks_of self.now.rows 4096) }
    {
        let mut total = 0;
        for row in &self.rows {
            total += row.count_ones() as usize;
        }
        total
    }

    // Writes the marked codes, rising, at the front of the buffer, if they fit, and gives how many there are. The number is given whether they
    // fit or not: its promise is older than this form.
    pub fn read(&self, codes: &mut [u16]) -> usize
        ensures { (result ≡ length (marks_of self.now.rows 4096)) × (codes.new ≡ read_into (marks_of self.now.rows 4096) codes.old) }
    {
        let total = self.count();
        if codes.len() < total {
            return total;
        }
        let mut at = 0;
        for (i, row) in self.rows.iter().enumerate() {
            at = read_row(*row, (i * 64) as u16, codes, at);
        }
        total
    }
}

// Writes the codes that a row marks, its first code being `base`, from place `at` of the buffer on, and gives the place after them. The place goes
// beside the buffer, since a part of it lent anew for each row is no plainer.
fn read_row(row: u64, base: u16, codes: &mut [u16], at: usize) -> usize
    requires base_bound { base ≤ 4032 }
    requires room { at + length (row_marks row base) ≤ length codes.old }
    ensures { (result ≡ at + length (row_marks row base)) × (codes.new ≡ sets codes.old at (row_marks row base)) }
{
    let end = at + row.count_ones() as usize;
    let mut rest = row;
    for next in at..end {
        codes[next] = base + rest.trailing_zeros() as u16;
        rest &= rest - 1;
    }
    end
}
