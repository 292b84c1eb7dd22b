// Cases and edges of the implicant question.
use crate::show;
use crate::tables::{PAIRS, VARIABLES, full};
use std::io;

// C2 of document 01, of C1's sheet: merging x1·x2 and x1·~x2 into x1 would say yes.
pub(crate) fn known(rt: &impl Print) -> io::Result<()> {
    show::implicant(rt, "C2", 2, &[10, 9], 8)
}

// Yes, and no at the first vector and at the last: there one of the six phrases reaches x1·x2·x3·x4·x5·x6 wherever a grade is 1.
pub(crate) fn verdicts(rt: &impl Print) -> io::Result<()> {
    show::implicant(rt, "asked-pair", 2, &[10, 9], 12)?;
    show::implicant(rt, "asked-variable", 1, &[3], 2)?;
    show::implicant(rt, "asked-of-empty", 1, &[], 0)?;
    show::implicant(rt, "asked-of-constant", 1, &[0], 0)?;
    let near = [2731, 2734, 2746, 2794, 2986, 3754];
    show::implicant(rt, "asked-last-vector", 6, &near, VARIABLES)
}

// Variables: 1 and 6 are taken.
pub(crate) fn variables(rt: &impl Print) -> io::Result<()> {
    show::implicant(rt, "asked-n-0", 0, &[0], 0)?;
    show::implicant(rt, "asked-n-1", 1, &[2], 1)?;
    show::implicant(rt, "asked-n-6", 6, &[VARIABLES], 2048)?;
    show::implicant(rt, "asked-n-7", 7, &[0], 0)?;
    show::implicant(rt, "asked-n-large", usize::MAX, &[0], 0)
}

// Lengths: 4,096 phrases are taken, and only the last of them makes the answer yes.
pub(crate) fn lengths(rt: &impl Print) -> io::Result<()> {
    show::implicant(rt, "asked-4096-phrases", 6, &full(), VARIABLES)?;
    show::implicant(rt, "asked-4097-phrases", 6, &[0; 4097], VARIABLES)
}

// Codes in the sheet: 15 is the last of two variables, 4,095 the last of six.
pub(crate) fn codes(rt: &impl Print) -> io::Result<()> {
    show::implicant(rt, "asked-code-15", 2, &[10, 15, 9], 15)?;
    show::implicant(rt, "asked-code-16", 2, &[10, 9, 16, 15, 17], 15)?;
    show::implicant(rt, "asked-code-4095", 6, &[PAIRS], PAIRS)?;
    show::implicant(rt, "asked-code-4096", 6, &[0, 4096], PAIRS)
}

// The phrase asked about: 15 is the last of two variables.
pub(crate) fn phrases(rt: &impl Print) -> io::Result<()> {
    show::implicant(rt, "asked-phrase-15", 2, &[10, 9], 15)?;
    show::implicant(rt, "asked-phrase-16", 2, &[10, 9], 16)?;
    show::implicant(rt, "asked-phrase-65535", 6, &[0], 65535)
}

// Sheets may hold a phrase more than once.
pub(crate) fn repeats(rt: &impl Print) -> io::Result<()> {
    show::implicant(rt, "asked-repeats-yes", 2, &[9, 10, 9, 9], 12)?;
    show::implicant(rt, "asked-repeats-no", 2, &[9, 10, 9, 9], 8)
}
