// The check of a sheet (01, "Sheets"): does it begin with a head of the right kind whose sizes are allowed, does it have as many words as they ask
// for, and which of these is the first that has a fault? The format is a parameter, so that every kind of sheet can have the same check.
#![tactic(auto)]

ghost use Rattle.std.specs.Prelude.{◌≡◌, ◌∷◌, ◌≤◌};
ghost use Rattle.integers.specs.Kit.{[], cond, length};
ghost use Rattle.integers.specs.Search.{found};
ghost use Rattle.limits.specs.Limits.{blocks_limit};
ghost use Rattle.answers.specs.Answer.{accept, accept_with, answered, refused, returned, returned_with};
ghost use Rattle.sheet_checks.specs.Check as check;
ghost use Rattle.sheet_checks.specs.Sheets.{ValidShape};

use answers::Refusal;
use integers::{Interval, first};
use limits::{BLOCKS_LIMIT, COEFFICIENTS, PLACES, SAMPLES};
use words::{Kind, has_kind, kind_number, payload, value};

// What the words of a sheet's body hold.
#[derive(Clone, Copy)]
pub enum Values {
    Samples,
    Coefficients,
}

// What the words of a sheet have to be.
#[derive(Clone, Copy)]
pub struct Format {
    // Kept: numbers, and no Kind: a format may have any kinds, and theorems speak of every format (`in_words`).
    // The kind of its head.
    pub head: u32,
    // The kind of the words of its body, what they hold, and the range of that.
    pub body: u32,
    pub values: Values,
    pub range: Interval,
}

// A sheet of samples.
pub const SAMPLE_FORMAT: Format = Format {
    head: Kind::SampleHead as u32,
    body: Kind::Sample as u32,
    values: Values::Samples,
    range: SAMPLES,
};

// A sheet of coefficients.
pub const COEFFICIENT_FORMAT: Format = Format {
    head: Kind::CoefficientHead as u32,
    body: Kind::Coefficient as u32,
    values: Values::Coefficients,
    range: COEFFICIENTS,
};

// The words of a sheet of n blocks: a head, the blocks and an end word.
fn size_of(n: usize) -> usize
    requires { n ≤ blocks_limit }
    ensures { result ≡ check.size_of n }
{
    2 + PLACES * n
}

// The blocks of a sheet that begins with a head of this kind whose sizes are allowed: a size of 0 makes 0 blocks.
fn blocks_of(head: u32, sheet: &[u32]) -> Option<usize>
    ensures { result ≡ check.allowed_blocks head sheet.now }
{
    let [w, ..] = sheet else {
        return None;
    };
    let n = words::blocks(*w) as usize;
    if kind_number(*w) == head && 0 < n && n <= BLOCKS_LIMIT {
        Some(n)
    } else {
        None
    }
}

// The check of the head and of the count of words, and that count.
pub fn check_shape(f: Format, sheet: &[u32]) -> Result<usize, Refusal>
    ensures { returned_with (λ n. n) result ≡ answered (check.shape f sheet.now) (accept_with (length sheet.now)) }
{
    let Some(n) = blocks_of(f.head, sheet) else {
        return Err(Refusal::Head(0));
    };
    if sheet.len() == size_of(n) {
        Ok(sheet.len())
    } else {
        Err(Refusal::Words(sheet.len()))
    }
}

// The refusal of a value that is out of range, at index i.
fn out_of_range(v: Values, i: usize) -> Refusal
    ensures { refused result ≡ record { number = check.out_of_range v; place = i } }
{
    match v {
        Values::Samples => Refusal::Sample(i),
        Values::Coefficients => Refusal::Coefficient(i),
    }
}

// The refusal of a word of the body that has a fault, at index i: kind before value.
fn body_refusal(f: Format, w: u32, i: usize) -> Refusal
    ensures { refused result ≡ record { number = check.body_cause f w; place = i } }
{
    if kind_number(w) == f.body {
        out_of_range(f.values, i)
    } else {
        Refusal::Words(i)
    }
}

// The check of the end word of n blocks, at index i: kind before payload.
fn check_end(n: usize, w: u32, i: usize) -> Result<(), Refusal>
    ensures { returned result ≡ cond (check.end_faulty n w) (record { number = check.end_cause w; place = i }) accept }
{
    if !has_kind(w, Kind::End) {
        return Err(Refusal::Words(i));
    }
    if payload(w) as usize != n {
        return Err(Refusal::End(i));
    }
    Ok(())
}

// Whether a word of the body has a fault.
fn body_faulty(f: Format, w: u32) -> bool
    ensures { result ≡ check.body_faulty f w }
{
    kind_number(w) != f.body || f.range.excludes(value(w))
}

// The index in a sheet's body of the first word that has a fault, if one has.
fn first_faulty(f: Format, body: &[u32]) -> Option<usize>
    ensures { result ≡ found (length body.now) (λ i. check.body_faulty f (check.word_at body.now i)) }
{
    first(body, |w| body_faulty(f, w))
}

// The check of the words of a sheet whose head and count are right, and how many there are.
pub fn check_words(f: Format, sheet: &[u32]) -> Result<usize, Refusal>
    requires { ValidShape f sheet.now }
    ensures { returned_with (λ n. n) result ≡ answered (check.contents f sheet.now ∷ []) (accept_with (length sheet.now)) }
{
    let last = sheet.len() - 1;
    match first_faulty(f, &sheet[1..last]) {
        Some(k) => Err(body_refusal(f, sheet[1 + k], 1 + k)),
        None => {
            check_end(words::blocks(sheet[0]) as usize, sheet[last], last)?;
            Ok(sheet.len())
        }
    }
}

// The whole check, of a job that asks for nothing else, and how many words there are.
pub fn check_sheet(f: Format, sheet: &[u32]) -> Result<usize, Refusal>
    ensures { returned_with (λ n. n) result ≡ answered (check.check_causes f sheet.now) (accept_with (length sheet.now)) }
{
    check_shape(f, sheet)?;
    check_words(f, sheet)
}
