// The two calls of `sheets`, each with its answer printed on a line under the case's name. The answer is the one that the result is proved to tell.
use sheets::answer::Answer;
use std::io;

// Asks for the sheet's value and prints number, detail and value.
pub(crate) fn value(
    rt: &impl Print,
    name: &str,
    n: usize,
    sheet: &[u16],
    scale: u16,
    grades: &[u16],
) -> io::Result<()> {
    let valued = sheets::value_told(sheets::value(n, sheet, scale, grades));
    answer(rt, name, valued.answer)?;
    print!(rt; " {}", valued.value)?;
    println!(rt)
}

// Asks whether the phrase is an implicant and prints number, detail, verdict and vector.
pub(crate) fn implicant(
    rt: &impl Print,
    name: &str,
    n: usize,
    sheet: &[u16],
    phrase: u16,
) -> io::Result<()> {
    let asked = sheets::verdict_told(sheets::implicant(n, sheet, phrase));
    answer(rt, name, asked.answer)?;
    print!(rt; " {}", asked.verdict as u8)?;
    print!(rt; " {}", asked.vector)?;
    println!(rt)
}

// The case's name, then number and detail, each after a space.
fn answer(rt: &impl Print, name: &str, answer: Answer) -> io::Result<()> {
    print!(rt; "{name}")?;
    print!(rt; " {}", answer.number)?;
    print!(rt; " {}", answer.detail)
}
