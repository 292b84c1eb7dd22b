// The two calls of `sheets` on two sheets.
use sheets::Refusal;

// One of them, with the head with which the names of its cases begin.
pub(crate) trait Pair {
    fn head() -> &'static str;

    fn call(n: usize, first: &[u16], second: &[u16], codes: &mut [u16]) -> Result<usize, Refusal>;
}

pub(crate) struct Join;

impl Pair for Join {
    fn head() -> &'static str {
        "join-"
    }

    fn call(n: usize, first: &[u16], second: &[u16], codes: &mut [u16]) -> Result<usize, Refusal> {
        sheets::join(n, first, second, codes)
    }
}

pub(crate) struct Meet;

impl Pair for Meet {
    fn head() -> &'static str {
        "meet-"
    }

    fn call(n: usize, first: &[u16], second: &[u16], codes: &mut [u16]) -> Result<usize, Refusal> {
        sheets::meet(n, first, second, codes)
    }
}
