// The job dequantize (02, request 2): 64 quantized values become coefficients again.
//
// It takes any numbers and any buffers. An accepted call leaves 64 products; a refused one leaves the buffer as it was, and names the first cause. Each
// product is made once, in 64 bits, before it is known whether any is beyond its limit.
#![tactic(auto)]

ghost use Rattle.std.specs.Prelude.{◌≡◌, ◌∷◌};
ghost use Rattle.integers.specs.Kit.{[], length};
ghost use Rattle.integers.specs.Range.{beyond_at};
ghost use Rattle.integers.specs.Search.{found};
ghost use Rattle.limits.specs.Limits.{dequantized_limit, places};
ghost use Rattle.answers.specs.Answer.{accept, answered, lowest, returned};
ghost use Rattle.answers.specs.Job.{job_left, job_returned};
ghost use Rattle.dequantize.specs.Narrow.{Narrow};
ghost use Rattle.quantize.specs.Preconditions.{StepsReady};
ghost use Rattle.dequantize.specs.Dequantize as spec;

use answers::Refusal;
use integers::first;
use limits::PLACES;
use quantize::check_steps;
use quantizer::{dequantized, dequantized_beyond, indices};

// The lowest place whose product is beyond the limit, if there is one.
fn first_beyond(products: &[i64]) -> Option<usize>
    ensures { result ≡ found (length products.now) (beyond_at dequantized_limit products.now) }
{
    first(products, |z| dequantized_beyond(z))
}

// The dequantized coefficients of 64 quantized values, in 64 bits, or the first of them that is beyond the limit. The loop has no early exit: it costs no
// branch.
// Kept: each product is asked where it is made, and `first` looks again only where one is beyond: a look at all products by itself is a second pass over them.
fn multiply(values: &[i32], steps: &[u32], products: &mut [i64; PLACES]) -> Result<(), Refusal>
    requires { StepsReady (length values.now) steps.now places }
    ensures returned_value { returned result ≡ answered (lowest places (spec.dequantized_beyond_at values.now steps.now) 11 ∷ []) accept }
    ensures products_after { products.new ≡ spec.dequantized_coefficients values.now steps.now }
{
    let order = indices();
    let mut beyond = false;
    for p in 0..PLACES {
        let z = dequantized(values[p], steps[order[p] as usize]);
        products[p] = z;
        beyond = beyond | dequantized_beyond(z);
    }
    if !beyond {
        return Ok(());
    }
    match first_beyond(products) {
        Some(at) => Err(Refusal::Coefficient(at)),
        None => Ok(()),
    }
}

// Copies 64 products within the limit into 32-bit numbers.
fn narrow(products: &[i64; PLACES], coefficients: &mut [i32])
    requires narrow { Narrow products.now }
    requires coefficients_len { length coefficients.old ≡ places }
    ensures { coefficients.new ≡ products.now }
{
    for p in 0..PLACES {
        coefficients[p] = products[p] as i32;
    }
}

// The coefficients that 64 quantized values stand for, or why these are refused; then `coefficients` is as it was.
pub fn dequantize(values: &[i32], steps: &[u32], coefficients: &mut [i32]) -> Result<(), Refusal>
    ensures result_value { returned result ≡ job_returned (spec.dequantize_job values.now steps.now coefficients.old) }
    ensures coefficients_after { coefficients.new ≡ job_left (spec.dequantize_job values.now steps.now coefficients.old) }
    ensures values_kept { values.exit.now ≡ values.entry.now }
    ensures steps_kept { steps.exit.now ≡ steps.entry.now }
{
    check_steps(values.len(), steps, coefficients.len())?;
    let mut products = [0i64; PLACES];
    multiply(values, steps, &mut products)?;
    narrow(&products, coefficients);
    Ok(())
}
