// How many variables: 1 and 6 are taken, 0 and 7 refused.
use crate::pair::Pair;
use crate::show;
use std::io;

// The list of one variable and of six.
pub(crate) fn lists(rt: &impl Print) -> io::Result<()> {
    show::list(rt, "list-n-0", 0, &[0], 2)?;
    show::list(rt, "list-n-1", 1, &[1, 2], 4)?;
    show::list(rt, "list-n-6", 6, &[321, 3082, 1300, 2052], 11)?;
    show::list(rt, "list-n-7", 7, &[0], 2)?;
    show::list(rt, "list-n-large", usize::MAX, &[0], 2)
}

// The join or the meet, with rooms of an entry more than the lists of one variable and of six variables need.
pub(crate) fn pairs<P: Pair>(rt: &impl Print, one: u8, six: u8) -> io::Result<()> {
    show::pair::<P>(rt, "n-0", 0, &[0], &[0], 2)?;
    show::pair::<P>(rt, "n-1", 1, &[1], &[2], one)?;
    show::pair::<P>(rt, "n-6", 6, &[321, 3082], &[1300, 2052], six)?;
    show::pair::<P>(rt, "n-7", 7, &[0], &[0], 2)?;
    show::pair::<P>(rt, "n-large", usize::MAX, &[0], &[0], 2)
}

// The complement.
pub(crate) fn complements(rt: &impl Print) -> io::Result<()> {
    show::complement(rt, "complement-n-0", 0, &[0], 2)?;
    show::complement(rt, "complement-n-1", 1, &[2], 2)?;
    show::complement(rt, "complement-n-6", 6, &[321, 3082, 1300, 2052], 22)?;
    show::complement(rt, "complement-n-7", 7, &[0], 2)?;
    show::complement(rt, "complement-n-large", usize::MAX, &[0], 2)
}
