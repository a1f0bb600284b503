// The way back (01, "What the library does"): 64 exact elements become the block that has them.
//
// `back` takes any buffers. An accepted call leaves the block in range that has the elements, and there is no other (`only_one`); a refused
// one leaves the buffer as it was, and names the first cause. Of the accepted sets, cause 5 refuses exactly those that no block in range has
// (`exactly`, `refuses`).
//
// `restored` makes the block that has the elements, if there is one, and otherwise some other. So forward decides: it has to accept what was
// restored, and make the same 512 numbers of it. A block's set is within the limit of cause 4, so the elements are searched for cause
// 4 only once there is known to be no block. Before that only single numbers are checked, those of the five rows that the passes read: this is quicker,
// and enough for the sums of the passes to fit 32 bits.
#![tactic(auto)]

ghost use Rattle.std.specs.Prelude.{◌≡◌, MatchResult};
ghost use Rattle.integers.specs.Kit.{length};
ghost use Rattle.integers.specs.Test.{eq_list};
ghost use Rattle.limits.specs.Limits.{components_size, places};
ghost use Rattle.answers.specs.Answer.{accept, answered, refused, returned};
ghost use Rattle.answers.specs.Job.{job_left, job_returned};
ghost use Rattle.back_passes.specs.Passes.{Limited};
ghost use Rattle.back.specs.Back.{back_causes, back_job, is_block_of};
ghost use Rattle.back.specs.Refusal.{refused_returned};

use answers::{Refusal, sized};
use back_passes::{READ_SIZE, restored};
use element_sets::first_above;
use forward::forward;
use integers::Interval;
use limits::{COMPONENTS, MAGNITUDES_LIMIT, PLACES};

// Whether two buffers of 512 numbers hold the same. The loop goes on past a difference, so that the compiler can compare several numbers at once, and so that
// it takes the same turns for all of them.
// Kept: a loop of its own, since the library's `==` ends at a difference.
fn same(a: &[i32; COMPONENTS], b: &[i32]) -> bool
    requires { length b.now ≡ components_size }
    ensures { result ≡ eq_list a.now b.now }
{
    let mut r = true;
    for i in 0..COMPONENTS {
        r = r & (a[i] == b[i]);
    }
    r
}

// Whether a block is in range and has these elements: forward accepts it, and makes the same 512 numbers.
fn is_block_of(elements: &[i32], block: &[i32; PLACES]) -> bool
    requires { length elements.now ≡ components_size }
    ensures { result ≡ is_block_of 2 elements.now block.now }
{
    let mut made = [0i32; COMPONENTS];
    forward(block, &mut made).is_ok() && same(&made, elements)
}

// The numbers that are not above the limit of an element's magnitudes by themselves.
const NUMBERS: Interval = Interval {
    lowest: -(MAGNITUDES_LIMIT as i32),
    highest: MAGNITUDES_LIMIT as i32,
};

// Why elements that no block has are refused: the first of them that is above the limit, or that there is no block.
fn refusal(elements: &[i32]) -> Refusal
    requires { length elements.now ≡ components_size }
    ensures { refused result ≡ refused_returned elements.now }
{
    match first_above(elements, MAGNITUDES_LIMIT) {
        Some(p) => Refusal::Magnitudes(p),
        None => Refusal::NoBlock,
    }
}

// Whether there is room for a block, and no number that the passes read is above the limit by itself; or why the elements are refused.
fn check(elements: &[i32], room: usize) -> Result<(), Refusal>
    ensures { MatchResult result (λ done. Limited elements.now × (room ≡ places)) (λ e. refused e ≡ answered (back_causes 2 elements.now room) accept) }
{
    sized(elements.len(), COMPONENTS)?;
    sized(room, PLACES)?;
    if NUMBERS.any_outside(&elements[..READ_SIZE]) {
        Err(refusal(elements))
    } else {
        Ok(())
    }
}

// A block into a buffer.
// Kept: a loop of its own, over a block by value: the library's `copy_from_slice`, and a loop over a block that is lent, are compiled to a call of memcpy, which the
// archive for C would then need from outside.
fn store(block: [i32; PLACES], samples: &mut [i32])
    requires { length samples.old ≡ places }
    ensures { samples.new ≡ block }
{
    for i in 0..PLACES {
        samples[i] = block[i];
    }
}

// The block of 64 samples that has these elements, or the reason why it is not written; then `samples` is as it was.
pub fn back(elements: &[i32], samples: &mut [i32]) -> Result<(), Refusal>
    ensures result_value { returned result ≡ job_returned (back_job 2 elements.now samples.old) }
    ensures samples_after { samples.new ≡ job_left (back_job 2 elements.now samples.old) }
    ensures elements_kept { elements.exit.now ≡ elements.entry.now }
{
    check(elements, samples.len())?;
    let block = restored(elements);
    if !is_block_of(elements, &block) {
        return Err(refusal(elements));
    }
    store(block, samples);
    Ok(())
}
