// The job to_floats (02, request 4): each coefficient of a block as a float, for the viewer.
//
// It takes any numbers and any buffers. An accepted call leaves 64 floats; a refused one leaves the buffer as it was, and names the first cause.
#![tactic(auto)]

ghost use Rattle.std.specs.Prelude.{◌≡◌};
ghost use Rattle.integers.specs.Kit.{length};
ghost use Rattle.limits.specs.Limits.{places};
ghost use Rattle.answers.specs.Answer.{accept, answered, returned};
ghost use Rattle.answers.specs.Job.{job_left, job_returned};
ghost use Rattle.to_floats.specs.Preconditions.{BlockInLimit};
ghost use Rattle.to_floats.specs.ToFloats.{block_floats, to_floats_causes, to_floats_job};

use answers::{Refusal, sized};
use floats::coefficient_float;
use limits::{COEFFICIENTS, PLACES};

// Whether a block is accepted, or why it is refused, for a floats buffer of this length.
pub fn check(coefficients: &[i32], room: usize) -> Result<(), Refusal>
    ensures { returned result ≡ answered (to_floats_causes coefficients.now room) accept }
{
    sized(room, PLACES)?;
    sized(coefficients.len(), PLACES)?;
    match COEFFICIENTS.first_outside(coefficients) {
        Some(at) => Err(Refusal::Coefficient(at)),
        None => Ok(()),
    }
}

// The floats of 64 coefficients within the limit.
fn fill(coefficients: &[i32], floats: &mut [f32])
    requires block_in_limit { BlockInLimit coefficients.now }
    requires floats_len { length floats.old ≡ places }
    ensures { floats.new ≡ block_floats coefficients.now }
{
    for p in 0..PLACES {
        floats[p] = coefficient_float(coefficients[p]);
    }
}

// The floats of 64 coefficients, or why these are refused; then `floats` is as it was.
pub fn to_floats(coefficients: &[i32], floats: &mut [f32]) -> Result<(), Refusal>
    ensures result_value { returned result ≡ job_returned (to_floats_job coefficients.now floats.old) }
    ensures floats_after { floats.new ≡ job_left (to_floats_job coefficients.now floats.old) }
    ensures coefficients_kept { coefficients.exit.now ≡ coefficients.entry.now }
{
    check(coefficients, floats.len())?;
    fill(coefficients, floats);
    Ok(())
}
