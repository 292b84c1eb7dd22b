// Sheets in order: what no call refuses.
ghost use mathlib.Core.List.{Memᴰ};
ghost use Rattle.std.specs.Prelude.{◌≡◌, ℕ, ◌^◌, ◌≤◌, ◌<◌, IfOk};
ghost use Rattle.sheets.specs.Answer.{first_of};
ghost use Rattle.sheets.specs.Refusal.{variables, phrases, codes, phrased};
ghost use Rattle.sheets.specs.Listing.{of_sheet, of_pair};
ghost use Rattle.sheets.specs.Told.{told};

use crate::first;
use crate::refusal::Refusal;

const MOST_VARIABLES: usize = 6;

const MOST_PHRASES: usize = 4096;

// A number of variables: 1 to 6.
#[derive(Clone, Copy)]
pub(crate) struct Variables {
    pub(crate) count: usize,
    ghost some: { 1 ≤ count },
    ghost few: { count ≤ 6 },
}

impl Variables {
    // 1: variables not 1 to 6.
    fn new(count: usize) -> Result<Variables, Refusal>
        ensures answer { told result ≡ variables count }
        ensures given { IfOk result (λ n. n.count ≡ count) }
    {
        if count < 1 || count > MOST_VARIABLES {
            return Err(Refusal::BadVariables(count));
        }
        Ok(Variables { count })
    }

    // How many codes there are.
    pub(crate) fn codes(self) -> u16
        ensures { result ≡ 4 ^ self.count }
    {
        4u16.pow(self.count as u32)
    }

    // How many vectors of scale 2 there are.
    pub(crate) fn vectors(self) -> u16
        ensures { result ≡ 3 ^ self.count }
    {
        3u16.pow(self.count as u32)
    }
}

// A sheet's phrases, each a code of its variables.
#[derive(Clone, Copy)]
pub(crate) struct Sheet<'a> {
    pub(crate) n: Variables,
    pub(crate) phrases: &'a [u16],
    ghost own: { (q : ℕ) → Memᴰ q phrases.now → q < 4 ^ n.count },
}

impl<'a> Sheet<'a> {
    // What a good result holds is told by each of the three below, since each is cited alone.

    // One sheet: 1, 2, 3.
    pub(crate) fn new(n: usize, phrases: &'a [u16]) -> Result<Sheet<'a>, Refusal>
        ensures answer { told result ≡ first_of (of_sheet n phrases.now) }
        ensures given { IfOk result (λ s. (s.n.count ≡ n) × (s.phrases.now ≡ phrases.now)) }
    {
        let n = Variables::new(n)?;
        short(phrases)?;
        Sheet::over(n, phrases)
    }

    // Two sheets: 1; 2 of the first, 2 of the second; 3 of the first, 3 of the second.
    pub(crate) fn pair(
        n: usize,
        first: &'a [u16],
        second: &'a [u16],
    ) -> Result<(Sheet<'a>, Sheet<'a>), Refusal>
        ensures answer { told result ≡ first_of (of_pair n first.now second.now) }
        ensures given { IfOk result (λ (s, t). (s.n.count ≡ n) × (s.phrases.now ≡ first.now) × (t.n.count ≡ n) × (t.phrases.now ≡ second.now)) }
    {
        let n = Variables::new(n)?;
        short(first)?;
        short(second)?;
        let first = Sheet::over(n, first)?;
        let second = Sheet::over(n, second)?;
        Ok((first, second))
    }

    // 3: a code that is 4 ^ n or more.
    fn over(n: Variables, phrases: &'a [u16]) -> Result<Sheet<'a>, Refusal>
        ensures answer { told result ≡ codes n.count phrases.now }
        ensures given { IfOk result (λ s. (s.n.count ≡ n.count) × (s.phrases.now ≡ phrases.now)) }
    {
        if let Some(index) = first::at_least_of_many(n.codes(), phrases) {
            return Err(Refusal::ForeignCode(index));
        }
        Ok(Sheet { n, phrases })
    }

    // 12: a phrase asked about that is 4 ^ n or more.
    pub(crate) fn check(&self, phrase: u16) -> Result<(), Refusal>
        ensures { told result ≡ phrased self.now.n.count phrase }
    {
        if phrase >= self.n.codes() {
            return Err(Refusal::ForeignPhrase(phrase));
        }
        Ok(())
    }
}

// 2: more than 4,096 phrases.
fn short(sheet: &[u16]) -> Result<(), Refusal>
    ensures { told result ≡ phrases sheet.now }
{
    if sheet.len() > MOST_PHRASES {
        return Err(Refusal::LongSheet(sheet.len()));
    }
    Ok(())
}
