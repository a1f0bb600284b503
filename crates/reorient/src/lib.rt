// A block's elements in another orientation (02, request 1), without going back to samples; and the orientation that two amount to, one after the other.
//
// `reorient` takes any buffers and any orientation. An accepted call leaves the elements of the block in that orientation, where they are a block's,
// and of any other accepted set the same elements by the same rule of place and sign; a refused one leaves the buffer as it was, and names the first
// cause.
#![tactic(auto)]

ghost use Rattle.std.specs.Prelude.{◌≡◌, IfOk, MatchResult};
ghost use Rattle.integers.specs.Kit.{false, ltb};
ghost use Rattle.answers.specs.declared.Refusal.TheVariants as refusal;
ghost use Rattle.answers.specs.Answer.{accept, answered, returned, returned_with};
ghost use Rattle.answers.specs.Job.{job_left, job_returned};
ghost use Rattle.orientations.specs.Orientation.{orientations};
ghost use Rattle.reorient.specs.Reorient.{compose_job, reorient_causes, reorient_job};

use answers::{Refusal, sized};
use element_sets::first_above;
use limits::{COMPONENTS, MAGNITUDES_LIMIT};
use orientations::{Orientation, composed, orient};

// The orientation that has this number, or that none has it.
fn numbered(number: u32) -> Result<Orientation, Refusal>
    ensures { MatchResult result (λ o. o.number ≡ number) (λ e. (e ≡ refusal.Orientation) × (ltb number orientations ≡ false)) }
{
    Orientation::try_from(number).map_err(|_| Refusal::Orientation)
}

// The orientation of an accepted call, or why it is refused, with room for this many numbers.
fn check(elements: &[i32], orientation: u32, room: usize) -> Result<Orientation, Refusal>
    ensures returned_value { returned result ≡ answered (reorient_causes elements.now orientation room) accept }
    ensures orientation_value { IfOk result (λ o. o.number ≡ orientation) }
{
    sized(elements.len(), COMPONENTS)?;
    sized(room, COMPONENTS)?;
    let known = numbered(orientation)?;
    match first_above(elements, MAGNITUDES_LIMIT) {
        Some(p) => Err(Refusal::Magnitudes(p)),
        None => Ok(known),
    }
}

// 512 numbers of elements in the given orientation, or why they are refused; then `output` is as it was.
pub fn reorient(elements: &[i32], orientation: u32, output: &mut [i32]) -> Result<(), Refusal>
    ensures result_value { returned result ≡ job_returned (reorient_job elements.now orientation output.old) }
    ensures output_after { output.new ≡ job_left (reorient_job elements.now orientation output.old) }
    ensures elements_kept { elements.exit.now ≡ elements.entry.now }
{
    let known = check(elements, orientation, output.len())?;
    orient(elements, known, output);
    Ok(())
}

// The orientation that the first followed by the second is, by its number, or why there is none.
pub fn compose_orientations(first: u32, second: u32) -> Result<usize, Refusal>
    ensures { returned_with (λ n. n) result ≡ job_returned (compose_job first second) }
{
    let row = numbered(first)?;
    let column = numbered(second)?;
    Ok(composed(row, column).number)
}
