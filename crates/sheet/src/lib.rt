// Sheets (01, "Sheets"; 02, request 5): a sheet of sample words becomes a sheet of coefficient words, with two sums.
//
// `sheet` takes any words, any b and any buffers. It looks at everything before it writes anything: an accepted call leaves the whole
// coefficient sheet and gives both sums, a refused one leaves both buffers as they were and names the first cause.
#![tactic(auto)]

ghost use Rattle.std.specs.Prelude.{◌≡◌, Result, IfOk};
ghost use Rattle.integers.specs.Kit.{length};
ghost use Rattle.limits.specs.Limits.{components_size};
ghost use Rattle.answers.specs.Answer.{accept_with, answered, returned_with};
ghost use Rattle.answers.specs.Job.{job_left, job_returned};
ghost use Rattle.coefficients.specs.Widths.{bits};
ghost use Rattle.sheet_blocks.specs.Blocks.{element_scratch};
ghost use Rattle.sheet.specs.Sheet.{sheet_causes, sheet_job, totals_given};

use answers::{Refusal, sized};
use coefficients::Width;
use limits::COMPONENTS;
use sheet_blocks::{Totals, convert};
use sheet_checks::{SAMPLE_FORMAT, check_shape, check_words};

// What an accepted call gives: how many words were written, and both sums.
#[derive(Clone, Copy)]
pub struct Written {
    pub words: usize,
    pub totals: Totals,
}

// The causes in their order, of the words, of b, and of the lengths of scratch and output. Where none holds, b is a width.
fn check(words: &[u32], b: u32, scratch: usize, output: usize) -> Result<Width, Refusal>
    ensures answer_value { returned_with (λ w. length words.now) result ≡ answered (sheet_causes components_size words.now b scratch output) (accept_with (length words.now)) }
    ensures width_value { IfOk result (λ w. bits w ≡ b) }
{
    let Ok(width) = Width::try_from(b) else {
        return Err(Refusal::Width);
    };
    check_shape(SAMPLE_FORMAT, words)?;
    sized(scratch, COMPONENTS)?;
    if output < words.len() {
        return Err(Refusal::Lengths);
    }
    check_words(SAMPLE_FORMAT, words)?;
    Ok(width)
}

// The coefficient sheet of a sample sheet at the width b and both sums, or why it is refused; then scratch and output are as they were.
pub fn sheet(
    words: &[u32],
    b: u32,
    scratch: &mut [i32],
    output: &mut [u32],
) -> Result<Written, Refusal>
    ensures answer_value { returned_with (λ w. w.words) result ≡ job_returned (sheet_job element_scratch words.now b scratch.old output.old) }
    ensures totals_value { totals_given result ≡ (job_left (sheet_job element_scratch words.now b scratch.old output.old)).totals }
    ensures scratch_after { scratch.new ≡ (job_left (sheet_job element_scratch words.now b scratch.old output.old)).scratch }
    ensures output_after { output.new ≡ (job_left (sheet_job element_scratch words.now b scratch.old output.old)).output }
    ensures words_kept { words.exit.now ≡ words.entry.now }
{
    let width = check(words, b, scratch.len(), output.len())?;
    let totals = convert(words, width, scratch, output);
    Ok(Written {
        words: words.len(),
        totals,
    })
}
