// Closing the marks upwards and downwards, and the least of them.
ghost use Rattle.rows.specs.Pass.{ClosedUp, ClosedDown, Least};

use crate::{Marks, across, bits, made};

impl Marks {
    // The codes that have some marked code within them.
    pub fn close_up(&self) -> Marks
        ensures { ClosedUp self.now.rows result.rows }
    {
        let mut marks = made::each(|i| bits::up(self.rows[i]));
        for k in 0..6 {
            across::raise(&mut marks, k);
        }
        marks
    }

    // The codes that are within some marked code. Each closing names its own passes; one with a direction is no plainer.
    pub fn close_down(&self) -> Marks
        ensures { ClosedDown self.now.rows result.rows }
    {
        let mut marks = made::each(|i| bits::down(self.rows[i]));
        for k in 0..6 {
            across::lower(&mut marks, k);
        }
        marks
    }

    // The marked codes that are marked no longer once any one literal is left out.
    pub fn least(&self) -> Marks
        ensures { Least self.now.rows result.rows }
    {
        let mut above = made::each(|i| bits::above(self.rows[i]));
        for k in 0..6 {
            across::raise_from(&mut above, self, k);
        }
        made::each(|i| bits::without(self.rows[i], above.rows[i]))
    }
}
