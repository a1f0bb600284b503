// The job quantize (02, request 2): 64 coefficients become quantized values.
//
// It takes any numbers and any buffers, and looks at everything before it writes anything: an accepted call leaves 64 numbers, each made of the
// coefficient at its place and of the step of that place; a refused one leaves the buffer as it was, and names the first cause.
#![tactic(auto)]

ghost use Rattle.std.specs.Prelude.{◌≡◌};
ghost use Rattle.integers.specs.Kit.{length};
ghost use Rattle.integers.specs.Range.{beyond_at};
ghost use Rattle.limits.specs.Limits.{coefficient_limit};
ghost use Rattle.answers.specs.Answer.{accept, answered, returned};
ghost use Rattle.answers.specs.Job.{job_left, job_returned};
ghost use Rattle.quantize.specs.Preconditions.{PlacesReady};
ghost use Rattle.quantize.specs.Quantize as spec;

use answers::{Refusal, sized};
use limits::{COEFFICIENTS, PLACES};
use quantizer::{first_step_outside, indices, quantized};

// Causes 1 and 10, for buffers of n and of m numbers.
pub fn check_steps(n: usize, steps: &[u32], m: usize) -> Result<(), Refusal>
    ensures { returned result ≡ answered (spec.step_causes n steps.now m) accept }
{
    sized(n, PLACES)?;
    sized(steps.len(), PLACES)?;
    sized(m, PLACES)?;
    match first_step_outside(steps) {
        Some(k) => Err(Refusal::Step(k)),
        None => Ok(()),
    }
}

// Whether coefficients are accepted, or why they are refused, for a values buffer of this length.
fn check(coefficients: &[i32], steps: &[u32], room: usize) -> Result<(), Refusal>
    ensures { returned result ≡ answered (spec.causes (beyond_at coefficient_limit coefficients.now) (length coefficients.now) steps.now room) accept }
{
    check_steps(coefficients.len(), steps, room)?;
    match COEFFICIENTS.first_outside(coefficients) {
        Some(at) => Err(Refusal::Coefficient(at)),
        None => Ok(()),
    }
}

// The quantized values of 64 coefficients within the limit.
fn fill(coefficients: &[i32], steps: &[u32], values: &mut [i32])
    requires { PlacesReady (beyond_at coefficient_limit coefficients.now) (length coefficients.now) steps.now (length values.old) }
    ensures { values.new ≡ spec.quantized_values coefficients.now steps.now }
{
    let order = indices();
    for p in 0..PLACES {
        values[p] = quantized(coefficients[p], steps[order[p] as usize]);
    }
}

// The quantized values of 64 coefficients, or why they are refused; then `values` is as it was.
pub fn quantize(coefficients: &[i32], steps: &[u32], values: &mut [i32]) -> Result<(), Refusal>
    ensures result_value { returned result ≡ job_returned (spec.quantize_job coefficients.now steps.now values.old) }
    ensures values_after { values.new ≡ job_left (spec.quantize_job coefficients.now steps.now values.old) }
    ensures coefficients_kept { coefficients.exit.now ≡ coefficients.entry.now }
    ensures steps_kept { steps.exit.now ≡ steps.entry.now }
{
    check(coefficients, steps, values.len())?;
    fill(coefficients, steps, values);
    Ok(())
}
