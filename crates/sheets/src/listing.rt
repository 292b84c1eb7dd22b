// Lists as they are handed out: read into lent buffers, or refused for want of room.
ghost use Rattle.std.specs.Prelude.{◌≡◌, [], ◌≤◌, length};
ghost use Rattle.rows.specs.Read.{marks_of};
ghost use Rattle.sheets.specs.Listing.{listed_answer, afterwards};
ghost use Rattle.sheets.specs.Told.{count_told};
ghost use Rattle.sheets.specs.Walk.{Flagged};

use crate::refusal::Refusal;
use rows::Marks;

// How many codes are marked; 4: they do not fit the room.
pub(crate) fn fit(primes: &Marks, room: usize) -> Result<usize, Refusal>
    ensures { count_told result ≡ listed_answer [] (marks_of primes.now.rows 4096) room }
{
    let count = primes.count();
    if count > room {
        return Err(Refusal::NoRoom(count));
    }
    Ok(count)
}

// Reads the marked codes into the buffer, if they fit.
pub(crate) fn publish(primes: &Marks, codes: &mut [u16]) -> Result<usize, Refusal>
    ensures answer { count_told result ≡ listed_answer [] (marks_of primes.now.rows 4096) (length codes.old) }
    ensures buffer { codes.new ≡ afterwards (count_told result) (marks_of primes.now.rows 4096) codes.old }
{
    let count = fit(primes, codes.len())?;
    primes.read(codes);
    Ok(count)
}

// Gives each code its flag: 1 where it is kept, else 0. Flags are stored by index: what is written through `iter_mut` beside another iterator is
// known to no proof yet.
pub(crate) fn flag(kept: &Marks, codes: &[u16], flags: &mut [u8])
    requires { length codes.now ≤ length flags.old }
    ensures { Flagged kept.now.rows codes.now (length codes.now) flags.old flags.new }
{
    for (i, code) in codes.iter().enumerate() {
        flags[i] = kept.holds(*code) as u8;
    }
}
