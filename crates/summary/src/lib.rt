// The job summary (02, request 4): a block in its mean grey and its largest other coefficient, for the viewer.
//
// It takes any numbers. An accepted call gives the grey of the block; a refused one names the first cause.
#![tactic(auto)]

ghost use Rattle.std.specs.Prelude.{◌≡◌};
ghost use Rattle.integers.specs.Kit.{pos};
ghost use Rattle.answers.specs.Answer.{returned};
ghost use Rattle.answers.specs.Job.{job_left, job_returned};
ghost use Rattle.to_floats.specs.Preconditions.{BlockInLimit};
ghost use Rattle.summary.specs.Summary as spec;

use answers::Refusal;
use floats::{coefficient_float, mean_grey};
use limits::PLACES;
use to_floats::check;

// A block for the viewer.
#[derive(Clone, Copy)]
pub enum Grey {
    // All coefficients but the first are 0: the mean grey.
    Flat(f32),
    // One of them is not: the mean grey, and the largest of them by magnitude.
    Textured(f32, f32),
}

// What a caller in another language is given of each case.
impl Grey {
    // 1 of a textured block, and 0 of a flat one.
    pub fn textured(self) -> u32
        ensures { result ≡ (spec.given self).textured }
    {
        match self {
            Grey::Flat(_) => 0,
            Grey::Textured(_, _) => 1,
        }
    }

    pub fn mean(self) -> f32
        ensures { result ≡ (spec.given self).mean }
    {
        match self {
            Grey::Flat(mean) | Grey::Textured(mean, _) => mean,
        }
    }

    // The float of the largest other coefficient, and plus zero of a flat block.
    pub fn largest(self) -> f32
        ensures { result ≡ (spec.given self).largest }
    {
        match self {
            Grey::Flat(_) => 0.0,
            Grey::Textured(_, largest) => largest,
        }
    }
}

// Kept: `BlockInLimit` is a clause, since the coefficients are lent as they came, and to_floats asks the same of them.

// The largest magnitude of all coefficients but the first. The loop has no early exit, so that the compiler takes several at a time.
fn largest_magnitude(coefficients: &[i32]) -> i32
    requires { BlockInLimit coefficients.now }
    ensures { result ≡ pos (spec.magnitude_at coefficients.now (spec.largest_place coefficients.now)) }
{
    let mut m = coefficients[1].abs();
    for p in 2..PLACES {
        m = m.max(coefficients[p].abs());
    }
    m
}

// The lowest place from 1 on whose coefficient has the magnitude m, which is the largest of them.
// Kept: a loop of its own. It always finds, so that the `Option` of `integers::first` would have to be unwrapped, and its own first look is `largest_magnitude`.
fn largest_place(coefficients: &[i32], m: i32) -> usize
    requires block_in_limit { BlockInLimit coefficients.now }
    requires m_value { m ≡ pos (spec.magnitude_at coefficients.now (spec.largest_place coefficients.now)) }
    ensures { result ≡ spec.largest_place coefficients.now }
{
    for p in 1..PLACES {
        if coefficients[p].abs() == m {
            return p;
        }
    }
    unreachable!()
}

// The grey of 64 coefficients within the limit.
fn grey_of(coefficients: &[i32]) -> Grey
    requires { BlockInLimit coefficients.now }
    ensures { spec.given result ≡ spec.block_summary coefficients.now }
{
    let mean = mean_grey(coefficients[0]);
    let m = largest_magnitude(coefficients);
    if m == 0 {
        return Grey::Flat(mean);
    }
    let p = largest_place(coefficients, m);
    Grey::Textured(mean, coefficient_float(coefficients[p]))
}

// A block in its mean grey and its largest other coefficient, or why it is refused: it is checked as if there were a buffer of 64 floats.
pub fn summary(coefficients: &[i32]) -> Result<Grey, Refusal>
    ensures answer_value { returned result ≡ job_returned (spec.summary_job coefficients.now) }
    ensures grey_value { spec.given_or_zeros result ≡ job_left (spec.summary_job coefficients.now) }
    ensures coefficients_kept { coefficients.exit.now ≡ coefficients.entry.now }
{
    check(coefficients, PLACES)?;
    Ok(grey_of(coefficients))
}
