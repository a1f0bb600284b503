// The job forward (01, "Elements"): 64 samples become 64 elements of eight components each.
//
// `forward` takes any buffers. An accepted call leaves the exact elements; a refused one leaves the buffer as it was, and names the first cause.
#![tactic(auto)]

ghost use Rattle.std.specs.Prelude.{◌≡◌};
ghost use Rattle.answers.specs.Answer.{accept, answered, returned};
ghost use Rattle.answers.specs.Job.{job_left, job_returned};
ghost use Rattle.forward.specs.Forward.{forward_causes, forward_job};

use answers::{Refusal, sized};
use forward_passes::transform;
use limits::{COMPONENTS, PLACES, SAMPLES};

// Whether a block is accepted, or why it is refused, for an elements buffer of this length.
fn check(samples: &[i32], room: usize) -> Result<(), Refusal>
    ensures { returned result ≡ answered (forward_causes 2 samples.now room) accept }
{
    sized(samples.len(), PLACES)?;
    sized(room, COMPONENTS)?;
    match SAMPLES.first_outside(samples) {
        Some(at) => Err(Refusal::Sample(at)),
        None => Ok(()),
    }
}

// The exact elements of a block of 64 samples, or the reason why there are none; then `elements` is as it was.
pub fn forward(samples: &[i32], elements: &mut [i32]) -> Result<(), Refusal>
    ensures result_value { returned result ≡ job_returned (forward_job 2 samples.now elements.old) }
    ensures elements_after { elements.new ≡ job_left (forward_job 2 samples.now elements.old) }
    ensures samples_kept { samples.exit.now ≡ samples.entry.now }
{
    check(samples, elements.len())?;
    transform(samples, elements);
    Ok(())
}
