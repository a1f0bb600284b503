// The jobs for programs in other languages: include/weld_dct.h declares them for C, rust/ wraps them for Rust. Each is the job of its crate,
// with the papers' number and place of the answer.
//
// Of every function here: it takes any numbers and buffers of any length, and returns. Its contract has no `requires`, and says for every input what
// it returns and what every buffer holds afterwards: the whole result, or one refusal with its place, and then each buffer is as it was, both sums that
// are returned 0 and every float plus zero. A buffer that is lent to be read is as it was. It keeps nothing between calls. What a caller in another
// language has to see to, because no function can look at it, the header says.
#![tactic(auto)]

ghost use Rattle.std.specs.Prelude.{◌≡◌};
ghost use Rattle.integers.specs.Kit.{T};
ghost use Rattle.answers.specs.Answer.{accepted, returned};
ghost use Rattle.answers.specs.Job.{job_left, job_returned};
ghost use Rattle.summary.specs.Summary.{summary_job};
ghost use Rattle.to_floats.specs.ToFloats.{to_floats_job};
ghost use Rattle.back.specs.Back.{back_job};
ghost use Rattle.dequantize.specs.Dequantize.{dequantize_job};
ghost use Rattle.quantize.specs.Quantize.{quantize_job};
ghost use Rattle.reorient.specs.Reorient.{compose_job, reorient_job};
ghost use Rattle.coefficients.specs.Coefficients.{AllNear};
ghost use Rattle.round.specs.Round.{round_job};
ghost use Rattle.sheet_blocks.specs.Blocks.{element_scratch};
ghost use Rattle.sheet_range.specs.SheetRange.{range_job};
ghost use Rattle.sheet.specs.Sheet.{sheet_job};
ghost use Rattle.forward.specs.Forward.{forward_job};
ghost use Rattle.weld_dct.specs.Returned.{given_by, number_and_place};

use answers::Refusal;

// What the functions return, three of them with sums or floats beside it: 0 for an accepted call, and the number of the refusal otherwise; and the
// place.
#[repr(C)]
#[derive(Clone, Copy)]
pub struct Returned {
    number: u32,
    place: usize,
}

impl From<Refusal> for Returned {
    ghost use Rattle.answers.specs.Answer.{refused};
    ghost use Rattle.weld_dct.specs.Returned.{number_and_place};

    ghost from_gives = { λ e r. number_and_place r ≡ refused e };

    fn from(refusal: Refusal) -> Self {
        Returned {
            number: refusal.number(),
            place: refusal.place(),
        }
    }
}

// What a job answers: an accepted call returns 0 and place 0.
impl From<Result<(), Refusal>> for Returned {
    ghost use Rattle.answers.specs.Answer.{returned};
    ghost use Rattle.weld_dct.specs.Returned.{number_and_place};

    ghost from_gives = { λ a r. number_and_place r ≡ returned a };

    fn from(answer: Result<(), Refusal>) -> Self {
        match answer {
            Ok(()) => Returned {
                number: 0,
                place: 0,
            },
            Err(refusal) => refusal.into(),
        }
    }
}

// Kept: numbers for b, orientations and `textured`, zeros beside a refusal, and one function for each job: the C interface.

// The exact elements of a block.
#[unsafe(no_mangle)]
pub extern "C" fn weld_dct_forward(samples: &[i32], elements: &mut [i32]) -> Returned
    ensures result_value { number_and_place result ≡ job_returned (forward_job 2 samples.now elements.old) }
    ensures elements_after { elements.new ≡ job_left (forward_job 2 samples.now elements.old) }
    ensures samples_kept { samples.exit.now ≡ samples.entry.now }
{
    forward::forward(samples, elements).into()
}

// The block that has these elements.
#[unsafe(no_mangle)]
pub extern "C" fn weld_dct_back(elements: &[i32], samples: &mut [i32]) -> Returned
    ensures result_value { number_and_place result ≡ job_returned (back_job 2 elements.now samples.old) }
    ensures samples_after { samples.new ≡ job_left (back_job 2 elements.now samples.old) }
    ensures elements_kept { elements.exit.now ≡ elements.entry.now }
{
    back::back(elements, samples).into()
}

// The coefficients of 64 elements at the width b.
#[unsafe(no_mangle)]
pub extern "C" fn weld_dct_round(elements: &[i32], b: u32, coefficients: &mut [i32]) -> Returned
    ensures result_value { number_and_place result ≡ job_returned (round_job 2 elements.now b coefficients.old) }
    ensures coefficients_after { coefficients.new ≡ job_left (round_job 2 elements.now b coefficients.old) }
    ensures all_near { T (accepted (number_and_place result)) → AllNear 2 elements.now b coefficients.new }
    ensures elements_kept { elements.exit.now ≡ elements.entry.now }
{
    round::round(elements, b, coefficients).into()
}

// What weld_dct_sheet returns: the number and place, which lie as if they were fields of its own, and both sums.
#[repr(C)]
#[derive(Clone, Copy)]
pub struct SheetReturned {
    returned: Returned,
    samples: i64,
    firsts: i64,
}

// The coefficient sheet of a sample sheet at the width b, and the sums of both.
#[unsafe(no_mangle)]
pub extern "C" fn weld_dct_sheet(
    words: &[u32],
    b: u32,
    scratch: &mut [i32],
    output: &mut [u32],
) -> SheetReturned
    ensures returned_value { number_and_place result.returned ≡ job_returned (sheet_job element_scratch words.now b scratch.old output.old) }
    ensures samples_value { result.samples ≡ (job_left (sheet_job element_scratch words.now b scratch.old output.old)).totals.samples }
    ensures firsts_value { result.firsts ≡ (job_left (sheet_job element_scratch words.now b scratch.old output.old)).totals.firsts }
    ensures scratch_after { scratch.new ≡ (job_left (sheet_job element_scratch words.now b scratch.old output.old)).scratch }
    ensures output_after { output.new ≡ (job_left (sheet_job element_scratch words.now b scratch.old output.old)).output }
    ensures words_kept { words.exit.now ≡ words.entry.now }
{
    match sheet::sheet(words, b, scratch, output) {
        Ok(written) => SheetReturned {
            returned: Returned {
                number: 0,
                place: written.words,
            },
            samples: written.totals.samples,
            firsts: written.totals.firsts,
        },
        Err(refusal) => SheetReturned {
            returned: refusal.into(),
            samples: 0,
            firsts: 0,
        },
    }
}

// Elements in another orientation.
#[unsafe(no_mangle)]
pub extern "C" fn weld_dct_reorient(
    elements: &[i32],
    orientation: u32,
    output: &mut [i32],
) -> Returned
    ensures result_value { number_and_place result ≡ job_returned (reorient_job elements.now orientation output.old) }
    ensures output_after { output.new ≡ job_left (reorient_job elements.now orientation output.old) }
    ensures elements_kept { elements.exit.now ≡ elements.entry.now }
{
    reorient::reorient(elements, orientation, output).into()
}

// The orientation that `second` after `first` is, returned as the place.
#[unsafe(no_mangle)]
pub extern "C" fn weld_dct_compose_orientations(first: u32, second: u32) -> Returned
    ensures { number_and_place result ≡ job_returned (compose_job first second) }
{
    match reorient::compose_orientations(first, second) {
        Ok(place) => Returned { number: 0, place },
        Err(refusal) => refusal.into(),
    }
}

// The quantized values of 64 coefficients.
#[unsafe(no_mangle)]
pub extern "C" fn weld_dct_quantize(
    coefficients: &[i32],
    steps: &[u32],
    quantized: &mut [i32],
) -> Returned
    ensures result_value { number_and_place result ≡ job_returned (quantize_job coefficients.now steps.now quantized.old) }
    ensures quantized_after { quantized.new ≡ job_left (quantize_job coefficients.now steps.now quantized.old) }
    ensures coefficients_kept { coefficients.exit.now ≡ coefficients.entry.now }
    ensures steps_kept { steps.exit.now ≡ steps.entry.now }
{
    quantize::quantize(coefficients, steps, quantized).into()
}

// The coefficients that 64 quantized values stand for.
#[unsafe(no_mangle)]
pub extern "C" fn weld_dct_dequantize(
    quantized: &[i32],
    steps: &[u32],
    coefficients: &mut [i32],
) -> Returned
    ensures result_value { number_and_place result ≡ job_returned (dequantize_job quantized.now steps.now coefficients.old) }
    ensures coefficients_after { coefficients.new ≡ job_left (dequantize_job quantized.now steps.now coefficients.old) }
    ensures quantized_kept { quantized.exit.now ≡ quantized.entry.now }
    ensures steps_kept { steps.exit.now ≡ steps.entry.now }
{
    dequantize::dequantize(quantized, steps, coefficients).into()
}

// 64 coefficients as floats.
#[unsafe(no_mangle)]
pub extern "C" fn weld_dct_to_floats(coefficients: &[i32], floats: &mut [f32]) -> Returned
    ensures result_value { number_and_place result ≡ job_returned (to_floats_job coefficients.now floats.old) }
    ensures floats_after { floats.new ≡ job_left (to_floats_job coefficients.now floats.old) }
    ensures coefficients_kept { coefficients.exit.now ≡ coefficients.entry.now }
{
    to_floats::to_floats(coefficients, floats).into()
}

// What weld_dct_summary returns: the number and place, likewise, 1 for a textured block, and the floats.
#[repr(C)]
#[derive(Clone, Copy)]
pub struct SummaryReturned {
    returned: Returned,
    textured: u32,
    mean: f32,
    largest: f32,
}

// A block in its mean grey and its largest other coefficient.
#[unsafe(no_mangle)]
pub extern "C" fn weld_dct_summary(coefficients: &[i32]) -> SummaryReturned
    ensures returned_value { number_and_place result.returned ≡ job_returned (summary_job coefficients.now) }
    ensures result_value { given_by result ≡ job_left (summary_job coefficients.now) }
    ensures coefficients_kept { coefficients.exit.now ≡ coefficients.entry.now }
{
    match summary::summary(coefficients) {
        Ok(grey) => SummaryReturned {
            returned: Ok(()).into(),
            textured: grey.textured(),
            mean: grey.mean(),
            largest: grey.largest(),
        },
        Err(refusal) => SummaryReturned {
            returned: refusal.into(),
            textured: 0,
            mean: 0.0,
            largest: 0.0,
        },
    }
}

// What weld_dct_sheet_range returns: the number and place, likewise, and the floats.
#[repr(C)]
#[derive(Clone, Copy)]
pub struct RangeReturned {
    returned: Returned,
    lowest: f32,
    highest: f32,
}

// The lowest and the highest float of a coefficient sheet.
#[unsafe(no_mangle)]
pub extern "C" fn weld_dct_sheet_range(words: &[u32]) -> RangeReturned
    ensures returned_value { number_and_place result.returned ≡ job_returned (range_job words.now) }
    ensures lowest_value { result.lowest ≡ (job_left (range_job words.now)).lowest }
    ensures highest_value { result.highest ≡ (job_left (range_job words.now)).highest }
    ensures words_kept { words.exit.now ≡ words.entry.now }
{
    match sheet_range::sheet_range(words) {
        Ok(range) => RangeReturned {
            returned: Ok(()).into(),
            lowest: range.lowest,
            highest: range.highest,
        },
        Err(refusal) => RangeReturned {
            returned: refusal.into(),
            lowest: 0.0,
            highest: 0.0,
        },
    }
}
