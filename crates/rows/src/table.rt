// The table of the simple or full codes, and those of them that are not marked.
ghost use Rattle.rows.specs.Pass.{Outside};

use crate::{Marks, bits, made};

// The codes that have no digit 3, or no digit 0, written out so that no row is computed.
const SIMPLE_OR_FULL: [u64; 64] = [
    0x0000_0777_0777_0777,
    0x0000_0777_0777_0777,
    0x0000_0777_0777_0777,
    0x0000_0000_0000_0000,
    0x0000_0777_0777_0777,
    0x0000_0777_0777_0777,
    0x0000_0777_0777_0777,
    0x0000_0000_0000_0000,
    0x0000_0777_0777_0777,
    0x0000_0777_0777_0777,
    0x0000_0777_0777_0777,
    0x0000_0000_0000_0000,
    0x0000_0000_0000_0000,
    0x0000_0000_0000_0000,
    0x0000_0000_0000_0000,
    0x0000_0000_0000_0000,
    0x0000_0777_0777_0777,
    0x0000_0777_0777_0777,
    0x0000_0777_0777_0777,
    0x0000_0000_0000_0000,
    0x0000_0777_0777_0777,
    0xeee0_eff7_eff7_0777,
    0xeee0_eff7_eff7_0777,
    0xeee0_eee0_eee0_0000,
    0x0000_0777_0777_0777,
    0xeee0_eff7_eff7_0777,
    0xeee0_eff7_eff7_0777,
    0xeee0_eee0_eee0_0000,
    0x0000_0000_0000_0000,
    0xeee0_eee0_eee0_0000,
    0xeee0_eee0_eee0_0000,
    0xeee0_eee0_eee0_0000,
    0x0000_0777_0777_0777,
    0x0000_0777_0777_0777,
    0x0000_0777_0777_0777,
    0x0000_0000_0000_0000,
    0x0000_0777_0777_0777,
    0xeee0_eff7_eff7_0777,
    0xeee0_eff7_eff7_0777,
    0xeee0_eee0_eee0_0000,
    0x0000_0777_0777_0777,
    0xeee0_eff7_eff7_0777,
    0xeee0_eff7_eff7_0777,
    0xeee0_eee0_eee0_0000,
    0x0000_0000_0000_0000,
    0xeee0_eee0_eee0_0000,
    0xeee0_eee0_eee0_0000,
    0xeee0_eee0_eee0_0000,
    0x0000_0000_0000_0000,
    0x0000_0000_0000_0000,
    0x0000_0000_0000_0000,
    0x0000_0000_0000_0000,
    0x0000_0000_0000_0000,
    0xeee0_eee0_eee0_0000,
    0xeee0_eee0_eee0_0000,
    0xeee0_eee0_eee0_0000,
    0x0000_0000_0000_0000,
    0xeee0_eee0_eee0_0000,
    0xeee0_eee0_eee0_0000,
    0xeee0_eee0_eee0_0000,
    0x0000_0000_0000_0000,
    0xeee0_eee0_eee0_0000,
    0xeee0_eee0_eee0_0000,
    0xeee0_eee0_eee0_0000,
];

impl Marks {
    // The simple or full codes that are not marked.
    pub fn outside(&self) -> Marks
        ensures { Outside self.now.rows result.rows }
    {
        // A local, so that the compiler takes several rows at once.
        let table = SIMPLE_OR_FULL;
        made::each(|i| bits::without(table[i], self.rows[i]))
    }
}
