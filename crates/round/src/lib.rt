// The job round (01, "Rounding at a width"): 64 elements become 64 coefficients in eighths.
//
// `round` takes any buffers and any b. An accepted call leaves the formula's 64 numbers, each within the promised distance (`AllNear`) of half
// of its element's value; a refused one leaves the buffer as it was, and names the first cause.
#![tactic(auto)]

ghost use Rattle.std.specs.Prelude.{◌≡◌, IfOk};
ghost use Rattle.integers.specs.Kit.{T};
ghost use Rattle.answers.specs.Answer.{accept, accepted, answered, returned};
ghost use Rattle.answers.specs.Job.{job_left, job_returned};
ghost use Rattle.coefficients.specs.Coefficients.{AllNear};
ghost use Rattle.coefficients.specs.Widths as widths;
ghost use Rattle.round.specs.Round.{round_causes, round_job};

use answers::{Refusal, sized};
use coefficients::{Width, fill};
use element_sets::first_above;
use limits::{COMPONENTS, MAGNITUDES_LIMIT, PLACES};

// The width b of an accepted call, or why it is refused, for a buffer of `room` coefficients.
fn check(elements: &[i32], b: u32, room: usize) -> Result<Width, Refusal>
    ensures returned_value { returned result ≡ answered (round_causes 2 elements.now b room) accept }
    ensures width_value { IfOk result (λ width. widths.bits width ≡ b) }
{
    sized(elements.len(), COMPONENTS)?;
    sized(room, PLACES)?;
    let width = Width::try_from(b).map_err(|_| Refusal::Width)?;
    match first_above(elements, MAGNITUDES_LIMIT) {
        Some(p) => Err(Refusal::Magnitudes(p)),
        None => Ok(width),
    }
}

// The coefficients of 64 elements at the width b, or why they are refused.
pub fn round(elements: &[i32], b: u32, coefficients: &mut [i32]) -> Result<(), Refusal>
    ensures result_value { returned result ≡ job_returned (round_job 2 elements.now b coefficients.old) }
    ensures coefficients_after { coefficients.new ≡ job_left (round_job 2 elements.now b coefficients.old) }
    ensures all_near { T (accepted (returned result)) → AllNear 2 elements.now b coefficients.new }
    ensures elements_kept { elements.exit.now ≡ elements.entry.now }
{
    let width = check(elements, b, coefficients.len())?;
    fill(elements, width, coefficients);
    Ok(())
}
