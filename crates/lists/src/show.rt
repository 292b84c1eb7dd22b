// The four calls of `sheets` that give a list, each with its answer and all that was lent printed on a line under the case's name. The answer is the one
// that the result is proved to tell.
use crate::pair::Pair;
use sheets::{Listed, count_told};
use std::fmt::Display;
use std::io;

// What a lent code is before the call: no code of six variables.
const CODE: u16 = 65535;

// What a lent flag is before the call: no flag.
const FLAG: u8 = 255;

// The most entries that a case lends: a room is a u8, so no slice goes past the end.
const MOST: usize = 255;

// Asks for the sheet's list with its cover, and lends as much room for codes as for flags.
pub(crate) fn list(
    rt: &impl Print,
    name: &str,
    n: usize,
    sheet: &[u16],
    room: u8,
) -> io::Result<()> {
    list_into(rt, name, n, sheet, room, room)
}

// The same with a room for codes and a room for flags.
pub(crate) fn list_into(
    rt: &impl Print,
    name: &str,
    n: usize,
    sheet: &[u16],
    code_room: u8,
    flag_room: u8,
) -> io::Result<()> {
    let mut codes = [CODE; MOST];
    let mut flags = [FLAG; MOST];
    let codes = &mut codes[..code_room as usize];
    let flags = &mut flags[..flag_room as usize];
    let listed = count_told(sheets::list(n, sheet, codes, flags));
    print!(rt; "{name}")?;
    answer(rt, listed)?;
    lent(rt, codes, listed.count)?;
    print!(rt; " flags")?;
    lent(rt, flags, listed.count)?;
    println!(rt)
}

// Asks for the join or the meet, whose head begins the case's name.
pub(crate) fn pair<P: Pair>(
    rt: &impl Print,
    case: &str,
    n: usize,
    first: &[u16],
    second: &[u16],
    room: u8,
) -> io::Result<()> {
    headed::<P>(rt, P::head(), case, n, first, second, room)
}

// The same under a name of its own.
pub(crate) fn named<P: Pair>(
    rt: &impl Print,
    name: &str,
    n: usize,
    first: &[u16],
    second: &[u16],
    room: u8,
) -> io::Result<()> {
    headed::<P>(rt, "", name, n, first, second, room)
}

// The same with a head that may be none. It is written together with the name, after the call.
fn headed<P: Pair>(
    rt: &impl Print,
    head: &str,
    name: &str,
    n: usize,
    first: &[u16],
    second: &[u16],
    room: u8,
) -> io::Result<()> {
    let mut codes = [CODE; MOST];
    let codes = &mut codes[..room as usize];
    let listed = count_told(P::call(n, first, second, codes));
    print!(rt; "{head}{name}")?;
    plain(rt, listed, codes)
}

// Asks for the complement.
pub(crate) fn complement(
    rt: &impl Print,
    name: &str,
    n: usize,
    sheet: &[u16],
    room: u8,
) -> io::Result<()> {
    let mut codes = [CODE; MOST];
    let codes = &mut codes[..room as usize];
    let listed = count_told(sheets::complement(n, sheet, codes));
    print!(rt; "{name}")?;
    plain(rt, listed, codes)
}

// The line of a call that gives no flags, after the name.
fn plain(rt: &impl Print, listed: Listed, codes: &[u16]) -> io::Result<()> {
    answer(rt, listed)?;
    lent(rt, codes, listed.count)?;
    println!(rt)
}

// Number, detail and count, each after a space.
fn answer(rt: &impl Print, listed: Listed) -> io::Result<()> {
    print!(rt; " {}", listed.answer.number)?;
    print!(rt; " {}", listed.answer.detail)?;
    print!(rt; " {}", listed.count)
}

// Prints all that was lent, with a bar before the first that the call had no entry for. The count goes beside it, since what was lent is printed whole.
fn lent<T: Display>(rt: &impl Print, lent: &[T], count: usize) -> io::Result<()> {
    for (i, x) in lent.iter().enumerate() {
        if i == count {
            print!(rt; " |")?;
        }
        print!(rt; " {x}")?;
    }
    Ok(())
}
