// Passes on one row: its 64 bits are the codes of three variables.
ghost use Rattle.std.specs.Prelude.{◌≡◌, ℕ, ◌-◌, ◌<◌, min};
ghost use Rattle.fuzzy.specs.Phrase.{has};
ghost use Rattle.rows.specs.Stage.{closed_up, closed_down, raised};

// The codes that have literal k, for k from 0 to 5.
const HAS_0: u64 = 0xaaaa_aaaa_aaaa_aaaa;

const HAS_1: u64 = 0xcccc_cccc_cccc_cccc;

const HAS_2: u64 = 0xf0f0_f0f0_f0f0_f0f0;

const HAS_3: u64 = 0xff00_ff00_ff00_ff00;

const HAS_4: u64 = 0xffff_0000_ffff_0000;

const HAS_5: u64 = 0xffff_ffff_0000_0000;

// The three passes below have a line for each of the six literals. A loop would need a table of masks and a second shift, for the length of the step:
// no plainer, and the steps are proved each by itself.

// Closed upwards.
pub(crate) fn up(row: u64) -> u64
    ensures { (c : ℕ) → c < 64 → has result c ≡ closed_up 6 (has row) c }
{
    let row = row | ((row << 1) & HAS_0);
    let row = row | ((row << 2) & HAS_1);
    let row = row | ((row << 4) & HAS_2);
    let row = row | ((row << 8) & HAS_3);
    let row = row | ((row << 16) & HAS_4);
    row | ((row << 32) & HAS_5)
}

// Closed downwards.
pub(crate) fn down(row: u64) -> u64
    ensures { (c : ℕ) → c < 64 → has result c ≡ closed_down 6 (has row) c }
{
    let row = row | ((row & HAS_0) >> 1);
    let row = row | ((row & HAS_1) >> 2);
    let row = row | ((row & HAS_2) >> 4);
    let row = row | ((row & HAS_3) >> 8);
    let row = row | ((row & HAS_4) >> 16);
    row | ((row & HAS_5) >> 32)
}

// The codes that are marked without one of their literals.
pub(crate) fn above(row: u64) -> u64
    ensures { (c : ℕ) → c < 64 → has result c ≡ raised 6 (has row) c }
{
    let above = (row << 1) & HAS_0;
    let above = above | ((row << 2) & HAS_1);
    let above = above | ((row << 4) & HAS_2);
    let above = above | ((row << 8) & HAS_3);
    let above = above | ((row << 16) & HAS_4);
    above | ((row << 32) & HAS_5)
}

// What the first row marks and the second does not.
pub(crate) fn without(row: u64, other: u64) -> u64
    ensures { (c : ℕ) → c < 64 → has result c ≡ min (has row c) (1 - has other c) }
{
    row ^ (row & other)
}
