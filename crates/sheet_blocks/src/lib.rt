// The blocks of a sheet (01, "Sheets"): the coefficient sheet of a sample sheet in which everything was found right.
//
// Each block goes through `transform` and `fill`, which check nothing: the check of the sheet gives what they ask. What the
// loop carries are the sums of the samples and of the first coefficients so far.
#![tactic(auto)]

ghost use Rattle.std.specs.Prelude.{◌≡◌, ◌*◌, ◌+◌, ◌-◌, ◌<◌, ◌≤◌, ◌+ℤ◌};
ghost use Rattle.integers.specs.Kit.{T, length};
ghost use Rattle.integers.specs.Table.{over, table};
ghost use Rattle.limits.specs.Limits.{components_size, places};
ghost use Rattle.blocks.specs.Blocks.{AllInRange, block_sum, elements_of};
ghost use Rattle.coefficients.specs.Coefficients.{coefficients_of};
ghost use Rattle.coefficients.specs.Widths.{bits};
ghost use Rattle.sheet_checks.specs.Check.{blocks};
ghost use Rattle.sheet_blocks.specs.Blocks as sheet;
ghost use Rattle.sheet_blocks.specs.Preconditions.{Checked, Fit, Room, with_blocks};
ghost use Rattle.sheet_blocks.specs.Sums.{Agree};

use coefficients::{Width, fill};
use forward_passes::transform;
use limits::PLACES;
use words::{Kind, payload, value, with_payload, with_value};

// The sum of samples, and that of the first coefficients of blocks in eighths. 64 bits hold those of any sheet.
#[derive(Clone, Copy, Default)]
pub struct Totals {
    pub samples: i64,
    pub firsts: i64,
}

impl Totals {
    // Both with one block more, whose first coefficient is `first`.
    fn with_block(self, samples: &[i32; PLACES], first: i32) -> Totals
        requires room { Room self }
        requires all_in_range { AllInRange 2 samples.now }
        ensures samples_value { result.samples ≡ self.samples +ℤ block_sum samples.now }
        ensures firsts_value { result.firsts ≡ self.firsts +ℤ first }
    {
        Totals {
            samples: self.samples + i64::from(sum(samples)),
            firsts: self.firsts + i64::from(first),
        }
    }
}

// Kept: `AllInRange` is a clause, as in the passes: the samples of a block are an array, and what is asked of it follows from the check of the sheet.

// The samples of block k.
fn block(words: &[u32], k: usize) -> [i32; PLACES]
    requires { 1 + places * k + places ≤ length words.now }
    ensures { result ≡ sheet.block words.now k }
{
    let first = 1 + PLACES * k;
    let mut samples = [0i32; PLACES];
    for i in 0..PLACES {
        samples[i] = value(words[first + i]);
    }
    samples
}

// The sum of a block's samples: since each is in range it fits 32 bits, and the compiler adds several such numbers at a time.
fn sum(samples: &[i32; PLACES]) -> i32
    requires { AllInRange 2 samples.now }
    ensures { result ≡ block_sum samples.now }
{
    let mut total = 0;
    for x in samples {
        total += *x;
    }
    total
}

// The words of a block's coefficients, at the start of a part of the output.
fn store(coefficients: &[i32; PLACES], output: &mut [u32])
    requires fit { Fit coefficients.now }
    requires places_in_bounds { places ≤ length output.old }
    ensures { output.new ≡ over (table places (sheet.coefficient_word coefficients.now)) output.old }
{
    for (i, z) in coefficients.iter().enumerate() {
        output[i] = with_value(Kind::Coefficient, *z);
    }
}

// The words of a block's coefficients, at the start of a part of the output; its elements stay in the scratch.
fn convert_block(samples: &[i32; PLACES], width: Width, scratch: &mut [i32], output: &mut [u32])
    requires all_in_range { AllInRange 2 samples.now }
    requires scratch_len { length scratch.old ≡ components_size }
    requires places_in_bounds { places ≤ length output.old }
    ensures scratch_after { scratch.new ≡ elements_of 2 samples.now }
    ensures output_after { output.new ≡ over (table places (sheet.coefficient_word (coefficients_of 2 (bits width) (elements_of 2 samples.now)))) output.old }
{
    transform(samples, scratch);
    let mut coefficients = [0i32; PLACES];
    fill(scratch, width, &mut coefficients);
    store(&coefficients, output);
}

// Block k: its words go to the output, its elements to the scratch, and both sums of the blocks before it take it in.
// Kept: words, width, scratch and output stay parameters; a struct of them is no plainer, since each contract would then add that both buffers stay lent.
fn next_block(
    totals: Totals,
    k: usize,
    words: &[u32],
    width: Width,
    scratch: &mut [i32],
    output: &mut [u32],
) -> Totals
    requires checked { Checked sheet.element_scratch words.now (bits width) (length scratch.old) (length output.old) }
    requires blocks_bound { k < blocks words.now }
    requires agree { Agree words.now output.old k totals }
    ensures agree_2 { Agree words.now output.new (k + 1) result }
    ensures scratch_after { scratch.new ≡ (sheet.element_scratch).holds (sheet.block words.now k) }
    ensures output_after { output.new ≡ with_blocks (bits width) words.now k 1 output.old }
{
    let first = 1 + PLACES * k;
    let samples = block(words, k);
    convert_block(&samples, width, scratch, &mut output[first..]);
    totals.with_block(&samples, value(output[first]))
}

// Every block, one after the other, and their sums.
fn all_blocks(words: &[u32], width: Width, scratch: &mut [i32], output: &mut [u32]) -> Totals
    requires { Checked sheet.element_scratch words.now (bits width) (length scratch.old) (length output.old) }
    ensures agree { Agree words.now output.new (blocks words.now) result }
    ensures scratch_after { scratch.new ≡ (sheet.element_scratch).holds (sheet.block words.now (blocks words.now - 1)) }
    ensures output_after { output.new ≡ with_blocks (bits width) words.now 0 (blocks words.now) output.old }
{
    // Head and end word are fewer than a block, so that what is left of the division is theirs.
    let n = words.len() / PLACES;
    let mut totals = Totals::default();
    for k in 0..n {
        totals = next_block(totals, k, words, width, scratch, output);
    }
    totals
}

// The coefficient sheet of a sample sheet in which everything was found right, and the sums of both.
pub fn convert(words: &[u32], width: Width, scratch: &mut [i32], output: &mut [u32]) -> Totals
    requires { Checked sheet.element_scratch words.now (bits width) (length scratch.old) (length output.old) }
    ensures agree { Agree words.now (sheet.coefficient_sheet (bits width) words.now) (blocks words.now) result }
    ensures scratch_after { scratch.new ≡ (sheet.element_scratch).holds (sheet.block words.now (blocks words.now - 1)) }
    ensures output_after { output.new ≡ over (sheet.coefficient_sheet (bits width) words.now) output.old }
{
    output[0] = with_payload(Kind::CoefficientHead, payload(words[0]));
    let totals = all_blocks(words, width, scratch, output);
    let end = words.len() - 1;
    output[end] = words[end];
    totals
}
