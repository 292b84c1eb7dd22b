// Cases and edges of the value.
use crate::show;
use crate::tables::{COMPLEMENTS, PAIRS, VARIABLES, full};
use std::io;

// C12 of document 01.
pub(crate) fn known(rt: &impl Print) -> io::Result<()> {
    of_c12(rt, "C12", &[4, 6, 8])
}

// Variables: 1 and 6 are taken.
pub(crate) fn variables(rt: &impl Print) -> io::Result<()> {
    show::value(rt, "value-n-0", 0, &[0], 10, &[])?;
    show::value(rt, "value-n-1", 1, &[2], 10, &[7])?;
    let grades = [9, 8, 7, 6, 5, 7];
    show::value(rt, "value-n-6", 6, &[VARIABLES, COMPLEMENTS], 10, &grades)?;
    show::value(rt, "value-n-7", 7, &[0], 10, &[1, 2, 3, 4, 5, 6, 7])?;
    show::value(rt, "value-n-large", usize::MAX, &[0], 10, &[1])
}

// Lengths: 4,096 phrases are taken, and the last of them has the greatest value.
pub(crate) fn lengths(rt: &impl Print) -> io::Result<()> {
    let grades = [9, 8, 7, 6, 9, 10];
    show::value(rt, "value-4096-phrases", 6, &full(), 10, &grades)?;
    show::value(rt, "value-4097-phrases", 6, &[0; 4097], 10, &grades)
}

// Codes in the sheet: 15 is the last of two variables, 4,095 the last of six.
pub(crate) fn codes(rt: &impl Print) -> io::Result<()> {
    show::value(rt, "value-code-15", 2, &[15], 10, &[7, 4])?;
    show::value(rt, "value-code-16", 2, &[10, 9, 16, 15, 17], 10, &[7, 4])?;
    let grades = [2, 3, 4, 5, 6, 7];
    show::value(rt, "value-code-4095", 6, &[PAIRS], 10, &grades)?;
    show::value(rt, "value-code-4096", 6, &[0, 4096], 10, &grades)
}

// Scales: 2 and 1,000 are taken, and the complement of 1 tells them apart.
pub(crate) fn scales(rt: &impl Print) -> io::Result<()> {
    complement_of_one(rt, "value-scale-0", 0)?;
    complement_of_one(rt, "value-scale-1", 1)?;
    complement_of_one(rt, "value-scale-2", 2)?;
    complement_of_one(rt, "value-scale-1000", 1000)?;
    complement_of_one(rt, "value-scale-1001", 1001)?;
    complement_of_one(rt, "value-scale-65535", 65535)
}

// Grades: the scale itself is taken, one more is refused at its index.
pub(crate) fn grades(rt: &impl Print) -> io::Result<()> {
    of_c12(rt, "value-grade-scale", &[10, 10, 10])?;
    of_c12(rt, "value-grade-above", &[4, 11, 12])?;
    of_c12(rt, "value-grade-65535", &[4, 6, 65535])
}

// How many grades came: one less than n, one more, none.
pub(crate) fn counts(rt: &impl Print) -> io::Result<()> {
    of_c12(rt, "value-grades-2-of-3", &[4, 6])?;
    of_c12(rt, "value-grades-4-of-3", &[4, 6, 8, 10])?;
    of_c12(rt, "value-grades-0-of-3", &[])
}

// The empty sheet is 0 everywhere, the sheet of code 0 the scale.
pub(crate) fn constants(rt: &impl Print) -> io::Result<()> {
    show::value(rt, "value-of-empty", 2, &[], 10, &[4, 6])?;
    show::value(rt, "value-of-constant", 2, &[0], 10, &[4, 6])
}

// Sheets may hold a phrase more than once.
pub(crate) fn repeats(rt: &impl Print) -> io::Result<()> {
    show::value(rt, "value-repeats", 2, &[9, 10, 9, 9], 10, &[7, 4])
}

// The value of C12's sheet on scale 10.
fn of_c12(rt: &impl Print, name: &str, grades: &[u16]) -> io::Result<()> {
    show::value(rt, name, 3, &[36, 50, 40, 25], 10, grades)
}

// The value of the sheet ~x1 at the grade 1.
fn complement_of_one(rt: &impl Print, name: &str, scale: u16) -> io::Result<()> {
    show::value(rt, name, 1, &[1], scale, &[1])
}
