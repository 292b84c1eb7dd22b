// What a call refuses.
ghost use Rattle.std.specs.Prelude.{◌≡◌, Some};
ghost use Rattle.sheets.specs.Told.{answer_of, refusal_text};

use std::error::Error;
use std::fmt;

// Why a call is refused, in the order of document 01's numbers, with what its detail tells.
#[derive(Clone, Copy, Debug, PartialEq, Eq)]
pub enum Refusal {
    // Variables not 1 to 6: the number given.
    BadVariables(usize),
    // More than 4,096 phrases in a sheet: how many.
    LongSheet(usize),
    // A code in a sheet that is 4 ^ n or more: the index of the first.
    ForeignCode(usize),
    // A result that does not fit the room lent: the entries needed.
    NoRoom(usize),
    // A scale not 2 to 1,000: the scale.
    BadScale(u16),
    // Grades not n in number: how many came.
    WrongCount(usize),
    // A grade above the scale: the index of the first.
    HighGrade(usize),
    // A phrase asked about that is 4 ^ n or more: its code.
    ForeignPhrase(u16),
}

impl Refusal {
    // Document 01's number.
    pub fn number(&self) -> u8
        ensures { result ≡ (answer_of self.now).number }
    {
        match self {
            Refusal::BadVariables(_) => 1,
            Refusal::LongSheet(_) => 2,
            Refusal::ForeignCode(_) => 3,
            Refusal::NoRoom(_) => 4,
            Refusal::BadScale(_) => 5,
            Refusal::WrongCount(_) => 6,
            Refusal::HighGrade(_) => 7,
            Refusal::ForeignPhrase(_) => 12,
        }
    }

    // Document 01's detail.
    pub fn detail(&self) -> u64
        ensures { result ≡ (answer_of self.now).detail }
    {
        match self {
            Refusal::BadVariables(given) => *given as u64,
            Refusal::LongSheet(length) => *length as u64,
            Refusal::ForeignCode(index) => *index as u64,
            Refusal::NoRoom(needed) => *needed as u64,
            Refusal::BadScale(scale) => *scale as u64,
            Refusal::WrongCount(came) => *came as u64,
            Refusal::HighGrade(index) => *index as u64,
            Refusal::ForeignPhrase(code) => *code as u64,
        }
    }
}

// Number and detail, parted by a blank.
impl fmt::Display for Refusal {
    ghost output = { λ e. Some (refusal_text e) };

    fn fmt<W: fmt::Write>(&self, f: &mut fmt::Formatter<W>) -> fmt::Result {
        write!(f, "{} {}", self.number(), self.detail())
    }
}

impl Error for Refusal {}
