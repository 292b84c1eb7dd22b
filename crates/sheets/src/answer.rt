// Answers in document 01's numbers: what the result of a call tells. No call answers them; who prints or keeps the numbers takes them from here.
ghost use Rattle.std.specs.Prelude.{◌≡◌};
ghost use Rattle.sheets.specs.Told.{told, value_told, verdict_told, count_told};

use crate::refusal::Refusal;

// The number of a call that is done.
pub const DONE: u8 = 0;

// A number, 0 where the call is done, and a detail.
#[derive(Clone, Copy)]
pub struct Answer {
    pub number: u8,
    pub detail: u64,
}

// The answer to `value`: the sheet's value, 0 on a refusal.
#[derive(Clone, Copy)]
pub struct Valued {
    pub answer: Answer,
    pub value: u16,
}

// The answer to `implicant`: whether the phrase is one, and if not the lowest vector of scale 2 at which it is above the sheet. No and 0 on a refusal.
#[derive(Clone, Copy)]
pub struct Asked {
    pub answer: Answer,
    pub verdict: bool,
    pub vector: u16,
}

// The answer to `list`, `join`, `meet` and `complement`: how many entries the list has, 0 on a refusal.
#[derive(Clone, Copy)]
pub struct Listed {
    pub answer: Answer,
    pub count: usize,
}

// What the result of `value` tells.
pub fn value_told(given: Result<u16, Refusal>) -> Valued
    ensures { result ≡ value_told given }
{
    let answer = told(&given);
    let value = given.unwrap_or(0);
    Valued { answer, value }
}

// What the result of `implicant` tells: yes where no vector shows otherwise.
pub fn verdict_told(given: Result<Option<u16>, Refusal>) -> Asked
    ensures { result ≡ verdict_told given }
{
    let (verdict, vector) = match given {
        Ok(None) => (true, 0),
        Ok(Some(vector)) => (false, vector),
        Err(_) => (false, 0),
    };
    Asked {
        answer: told(&given),
        verdict,
        vector,
    }
}

// What the result of `list`, `join`, `meet` or `complement` tells.
pub fn count_told(given: Result<usize, Refusal>) -> Listed
    ensures { result ≡ count_told given }
{
    let answer = told(&given);
    let count = given.unwrap_or(0);
    Listed { answer, count }
}

// Done, or the refusal's number and detail.
fn told<T>(given: &Result<T, Refusal>) -> Answer
    ensures { result ≡ told given.now }
{
    match given {
        Ok(_) => Answer {
            number: DONE,
            detail: 0,
        },
        Err(refusal) => Answer {
            number: refusal.number(),
            detail: refusal.detail(),
        },
    }
}
