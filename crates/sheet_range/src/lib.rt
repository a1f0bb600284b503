// The lowest and the highest float of a coefficient sheet, for the viewer (02, request 4).
//
// `sheet_range` takes any words. It looks at all of them before it answers: a refused sheet gives no float, and names the first cause.
#![tactic(auto)]

ghost use Rattle.std.specs.Prelude.{◌≡◌, ◌-◌};
ghost use Rattle.integers.specs.Kit.{cond};
ghost use Rattle.std.specs.Float.Ieee.{lt};
ghost use Rattle.limits.specs.Limits.{places};
ghost use Rattle.answers.specs.Answer.{returned};
ghost use Rattle.answers.specs.Job.{job_left, job_returned};
ghost use Rattle.floats.specs.Fraction.{coefficient_float};
ghost use Rattle.sheet_checks.specs.Check.{coefficient_format, value_at};
ghost use Rattle.sheet_checks.specs.Sheets.{ValidSheet};
ghost use Rattle.sheet_range.specs.Preconditions.{InBody};
ghost use Rattle.sheet_range.specs.SheetRange as spec;

use answers::Refusal;
use floats::coefficient_float;
use limits::PLACES;
use sheet_checks::{COEFFICIENT_FORMAT, check_sheet};
use words::value;

// The lowest and the highest of some floats.
#[derive(Clone, Copy)]
pub struct Range {
    pub lowest: f32,
    pub highest: f32,
}

impl Range {
    // The least range that holds both.
    fn hull(self, r: Range) -> Range
        ensures lowest_value { result.lowest ≡ cond (lt r.lowest self.lowest) r.lowest self.lowest }
        ensures highest_value { result.highest ≡ cond (lt self.highest r.highest) r.highest self.highest }
    {
        Range {
            lowest: floats::lower(self.lowest, r.lowest),
            highest: floats::higher(self.highest, r.highest),
        }
    }
}

// The range of the block whose first word is at index a. The loop compares whole numbers, so that the compiler takes several words at a time.
fn range_of_block(words: &[u32], a: usize) -> Range
    requires { InBody words.now a }
    ensures lowest_value { result.lowest ≡ coefficient_float (spec.least (value_at words.now) a (places - 1)) }
    ensures highest_value { result.highest ≡ coefficient_float (spec.greatest (value_at words.now) a (places - 1)) }
{
    let mut lowest = value(words[a]);
    let mut highest = lowest;
    for i in a + 1..a + PLACES {
        let y = value(words[i]);
        lowest = lowest.min(y);
        highest = highest.max(y);
    }
    Range {
        lowest: coefficient_float(lowest),
        highest: coefficient_float(highest),
    }
}

// The range of a coefficient sheet, which is updated block by block along the sheet.
fn range_of_sheet(words: &[u32]) -> Range
    requires { ValidSheet coefficient_format words.now }
    ensures lowest_value { result.lowest ≡ spec.lowest_float words.now }
    ensures highest_value { result.highest ≡ spec.highest_float words.now }
{
    let mut r = range_of_block(words, 1);
    // Head and end word are fewer than a block, so that what is left of the division is theirs.
    for k in 1..words.len() / PLACES {
        r = r.hull(range_of_block(words, 1 + PLACES * k));
    }
    r
}

// The lowest and the highest float of a coefficient sheet, or why it is refused.
pub fn sheet_range(words: &[u32]) -> Result<Range, Refusal>
    ensures answer_value { returned result ≡ job_returned (spec.range_job words.now) }
    ensures range_value { spec.range_given result ≡ job_left (spec.range_job words.now) }
    ensures words_kept { words.exit.now ≡ words.entry.now }
{
    check_sheet(COEFFICIENT_FORMAT, words)?;
    Ok(range_of_sheet(words))
}
