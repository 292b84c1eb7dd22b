// The scan that codes and grades share.
ghost use Rattle.std.specs.Prelude.{◌≡◌, ℕ, ◌≤◌, ◌<◌, length, position, leb, slice_index};

// How many entries a piece has: enough that the steps from piece to piece cost little, few beside a full sheet.
const PIECE: usize = 128;

// The index of the first entry that is at least the limit, none where there is none.
pub(crate) fn at_least(limit: u16, list: &[u16]) -> Option<usize>
    ensures { result ≡ position (λ x. leb limit x) list.now }
{
    list.iter().position(|x| *x >= limit)
}

// The same of many entries. They are taken piece by piece, so that no more than a piece is read beyond the one found.
pub(crate) fn at_least_of_many(limit: u16, list: &[u16]) -> Option<usize>
    ensures { result ≡ position (λ x. leb limit x) list.now }
{
    let mut before = 0;
    for piece in list.chunks(PIECE) {
        if let Some(index) = in_piece(limit, piece) {
            return Some(before + index);
        }
        before += piece.len();
    }
    None
}

// The same within a piece. Where even the or of all its entries is below the limit, there is nothing to look for.
fn in_piece(limit: u16, list: &[u16]) -> Option<usize>
    ensures { result ≡ position (λ x. leb limit x) list.now }
{
    if or_of_all(list) < limit {
        return None;
    }
    at_least(limit, list)
}

// The or of all entries: none is above it. The crate rows has a function like it, private there; one more public one for four lines is no plainer.
fn or_of_all(list: &[u16]) -> u16
    ensures { (i : ℕ) → i < length list.now → slice_index list.now i ≤ result }
{
    let mut all = 0;
    for x in list {
        all |= *x;
    }
    all
}
