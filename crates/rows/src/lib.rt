// Marks over the 4,096 codes of six variables, and the passes over them.
#![tactic(auto)]

mod across;
mod bits;
mod closing;
mod cutting;
mod exchanging;
mod joining;
mod made;
mod reading;
mod sheet;
mod single;
mod table;

// How many codes there are.
const CODES: u16 = 4096;

// 64 rows of 64 bits: code c is marked where bit c % 64 of row c / 64 is set.
#[derive(Clone, Copy)]
pub struct Marks {
    pub rows: [u64; 64],
}
