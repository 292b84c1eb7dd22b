// Grades in order, and the values of literals, phrases and sheets at them.
ghost use mathlib.Core.List.{[], ◌∷◌, Memᴰ};
ghost use Rattle.std.specs.Prelude.{◌≡◌, ℕ, ◌≤◌, ◌<◌, length, IfOk};
ghost use Rattle.fuzzy.specs.Grade.{literal, phrase_value, sheet_value};
ghost use Rattle.sheets.specs.Answer.{first_of};
ghost use Rattle.sheets.specs.Refusal.{scaled, counted, graded};
ghost use Rattle.sheets.specs.Told.{told};

use crate::first;
use crate::refusal::Refusal;
use crate::sheet::Variables;

const LEAST_SCALE: u16 = 2;

const MOST_SCALE: u16 = 1000;

// A grade for each variable, none above the scale.
#[derive(Clone, Copy)]
pub(crate) struct Grades<'a> {
    scale: u16,
    grades: &'a [u16],
    ghost few: { length grades.now ≤ 6 },
    ghost low: { (g : ℕ) → Memᴰ g grades.now → g ≤ scale },
}

impl<'a> Grades<'a> {
    // 5: a scale not 2 to 1,000; 6: grades not n in number; 7: a grade above the scale. Scale and grades come side by side to here, as document 01
    // lends them.
    pub(crate) fn new(n: Variables, scale: u16, grades: &'a [u16]) -> Result<Grades<'a>, Refusal>
        ensures answer { told result ≡ first_of (scaled scale ∷ counted n.count grades.now ∷ graded scale grades.now ∷ []) }
        ensures given { IfOk result (λ v. (v.scale ≡ scale) × (v.grades.now ≡ grades.now) × (length grades.now ≡ n.count)) }
    {
        if scale < LEAST_SCALE || scale > MOST_SCALE {
            return Err(Refusal::BadScale(scale));
        }
        if grades.len() != n.count {
            return Err(Refusal::WrongCount(grades.len()));
        }
        if let Some(index) = first::at_least(scale + 1, grades) {
            return Err(Refusal::HighGrade(index));
        }
        Ok(Grades { scale, grades })
    }

    // The greatest of the phrases' values.
    pub(crate) fn of_sheet(&self, sheet: &[u16]) -> u16
        ensures { result ≡ sheet_value self.now.scale (length self.now.grades.now) sheet.now self.now.grades.now }
    {
        let mut greatest = 0;
        for phrase in sheet {
            greatest = self.of_phrase(*phrase).max(greatest);
        }
        greatest
    }

    // The least of the literals' values.
    fn of_phrase(&self, phrase: u16) -> u16
        ensures { result ≡ phrase_value self.now.scale (length self.now.grades.now) phrase self.now.grades.now }
    {
        let mut least = self.scale;
        for (i, grade) in self.grades.iter().enumerate() {
            let digit = (phrase >> (2 * (self.grades.len() - 1 - i))) % 4;
            least = literal(self.scale, digit, *grade).min(least);
        }
        least
    }
}

// The value of a digit's literals. A digit is a number here, as it is in the definitions.
fn literal(scale: u16, digit: u16, grade: u16) -> u16
    requires { (digit < 4) × (grade ≤ scale) }
    ensures { result ≡ literal scale digit grade }
{
    let complement = scale - grade;
    match digit {
        0 => scale,
        1 => complement,
        2 => grade,
        _ => grade.min(complement),
    }
}
