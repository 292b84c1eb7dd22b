// Puts document 01's cases and edges to the two public calls of `sheets` and prints the answers, one line a case.
// After the case's name: number, detail and value of `value`; number, detail, verdict (1 yes, 0 no) and vector of `implicant`.
#![tactic(auto)]

mod orders;
mod questions;
mod show;
mod tables;
mod values;

use std::io;

fn main(rt: HostRuntime) -> io::Result<()> {
    questions::known(&rt)?;
    values::known(&rt)?;
    questions::verdicts(&rt)?;
    questions::variables(&rt)?;
    values::variables(&rt)?;
    questions::lengths(&rt)?;
    values::lengths(&rt)?;
    questions::codes(&rt)?;
    values::codes(&rt)?;
    questions::phrases(&rt)?;
    values::scales(&rt)?;
    values::grades(&rt)?;
    values::counts(&rt)?;
    orders::questions(&rt)?;
    orders::values(&rt)?;
    values::constants(&rt)?;
    values::repeats(&rt)?;
    questions::repeats(&rt)
}
