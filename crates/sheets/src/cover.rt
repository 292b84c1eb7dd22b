// The cover: document 01's walk over the primes, most literals first and among equals the larger code first.
ghost use Rattle.std.specs.Prelude.{length};
ghost use Rattle.sheets.specs.Walk.{Behind, Meets, Round, Covers};

use crate::cell;
use crate::sheet::Variables;
use rows::Marks;

// How many codes there are. A prime is below it, so the remainder by it is the prime itself, and within an array of so many.
const CODES: u16 = 4096;

// What the walk has left, and for each set of pairs the points that primes with fewer pairs cover, or its own that were met and are left.
#[derive(Clone, Copy)]
struct Walked {
    left: Marks,
    kept: [u64; 64],
}

// What the walk leaves of the primes, whose codes are given.
pub(crate) fn walk(n: Variables, primes: &Marks, codes: &[u16]) -> Marks
    ensures { Covers n.count primes.now.rows codes.now (length codes.now) result.rows }
{
    // By code: the points that the primes behind a prime cover, of its own set of pairs.
    let mut later = [0; 4096];
    let own = behind(n, codes, &mut later);
    let mut walk = Walked {
        left: *primes,
        kept: cell::below(&own),
    };
    for literals in (0..2 * n.count as u32 + 1).rev() {
        walk.round(&later, codes, literals);
    }
    walk.left
}

// Goes against the walk: gives the points of each set of pairs that its primes cover, and sets at each prime those that the primes behind it cover.
fn behind(n: Variables, codes: &[u16], later: &mut [u64; 4096]) -> [u64; 64]
    ensures { Behind n.count codes.now result later.new }
{
    let mut own = [0; 64];
    for literals in 0..2 * n.count as u32 + 1 {
        for prime in codes {
            if prime.count_ones() == literals {
                let prime = *prime % CODES;
                let cell = cell::pairs(prime);
                later[prime as usize] = own[cell];
                own[cell] |= cell::points(prime);
            }
        }
    }
    own
}

impl Walked {
    // Meets the primes with so many literals, from the last to the first.
    fn round(&mut self, later: &[u64; 4096], codes: &[u16], literals: u32)
        ensures { Round self.old.left.rows self.old.kept later.now codes.now (length codes.now) literals 0 self.new.left.rows self.new.kept }
    {
        for prime in codes.iter().rev() {
            if prime.count_ones() == literals {
                self.meet(later, *prime);
            }
        }
    }

    // Strikes the prime if the others left cover its points. A simple prime always stays.
    fn meet(&mut self, later: &[u64; 4096], prime: u16)
        ensures { Meets self.old.left.rows self.old.kept later.now prime self.new.left.rows self.new.kept }
    {
        let code = prime % CODES;
        let cell = cell::pairs(code);
        let points = cell::points(code);
        let others = self.kept[cell] | later[code as usize];
        if cell != 0 && others & points == points {
            self.left.unmark(prime);
        } else {
            self.kept[cell] |= points;
        }
    }
}
