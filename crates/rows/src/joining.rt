// Marks joined, and turned over.
ghost use Rattle.rows.specs.Pass.{Either, Both, Others};

use crate::{Marks, bits, made};

impl Marks {
    // The codes that are marked in either.
    pub fn either(&self, other: &Marks) -> Marks
        ensures { Either self.now.rows other.now.rows result.rows }
    {
        made::each(|i| self.rows[i] | other.rows[i])
    }

    // The codes that are marked in both.
    pub fn both(&self, other: &Marks) -> Marks
        ensures { Both self.now.rows other.now.rows result.rows }
    {
        made::each(|i| self.rows[i] & other.rows[i])
    }

    // The codes that are not marked.
    pub fn others(&self) -> Marks
        ensures { Others self.now.rows result.rows }
    {
        made::each(|i| bits::without(u64::MAX, self.rows[i]))
    }
}
