// Quantization of one coefficient by its step (02, request 2), and dequantization; and which quantization step of the list belongs to which place.
//
// 32 bits suffice for the quotient: a magnitude plus half of its divisor is at most 4,198,399. A product in dequantization has a magnitude of up to 2^44.
#![tactic(auto)]

ghost use Rattle.std.specs.Prelude.{◌≡◌, ◌<◌, ◌+◌, ◌*◌, ◌/◌, ◌≤◌};
ghost use Rattle.integers.specs.Kit.{nat_abs, length};
ghost use Rattle.integers.specs.Range.{beyond};
ghost use Rattle.integers.specs.Search.{found};
ghost use Rattle.limits.specs.Limits.{coefficient_limit, dequantized_limit, places, step_limit};
ghost use Rattle.quantizer.specs.Quantizer as spec;
ghost use Rattle.quantizer.specs.ZigZag.{indices_by_row};

use integers::first;
use limits::{DEQUANTIZED_LIMIT, PLACES, STEP_LIMIT};

// The indices that the zig-zag order gives the places, row by row: T.81, Figure A.6. They stand in one list, since reading by row and column takes longer.
const INDICES: [u8; PLACES] = [
    0, 1, 5, 6, 14, 15, 27, 28, 2, 4, 7, 13, 16, 26, 29, 42, 3, 8, 12, 17, 25, 30, 41, 43, 9, 11,
    18, 24, 31, 40, 44, 53, 10, 19, 23, 32, 39, 45, 52, 54, 20, 22, 33, 38, 46, 51, 55, 60, 21, 34,
    37, 47, 50, 56, 59, 61, 35, 36, 48, 49, 57, 58, 62, 63,
];

// The indices of all places, as the walk along the diagonals gives them.
pub fn indices() -> [u8; PLACES]
    ensures { result ≡ indices_by_row }
{
    INDICES
}

// Kept: a step is a u32 and a product an i64, and each has a test of its own beside `Interval`: a generic one would speak of its type's order, and each use of the numbers'.
// Whether a quantization step is out of range.
fn step_outside(step: u32) -> bool
    ensures { result ≡ spec.step_outside step }
{
    (step < 1) | (STEP_LIMIT < step)
}

// The lowest index of a step out of range, if there is one.
pub fn first_step_outside(steps: &[u32]) -> Option<usize>
    ensures { result ≡ found (length steps.now) (spec.step_outside_at steps.now) }
{
    first(steps, |step| step_outside(step))
}

// a over 8 · step, to the nearest, and at a half to the upper one.
// Kept: the bounds of a step are asked here and below, since 64 steps are looked at together; a type would be made anew at each place, with this proof.
fn quotient(a: u32, step: u32) -> u32
    requires a_le_coefficient_limit { a ≤ coefficient_limit }
    requires step_nonzero { 0 < step }
    requires step_le_step_limit { step ≤ step_limit }
    ensures { result ≡ (a + 4 * step) / (8 * step) }
{
    (a + 4 * step) / (8 * step)
}

// The quantized value of a coefficient: that of its magnitude, with its sign.
pub fn quantized(y: i32, step: u32) -> i32
    requires y_bound { nat_abs y ≤ coefficient_limit }
    requires step_nonzero { 0 < step }
    requires step_le_step_limit { step ≤ step_limit }
    ensures { result ≡ spec.quantized y step }
{
    let q = quotient(y.unsigned_abs(), step) as i32;
    if y < 0 {
        return -q;
    }
    q
}

// The dequantized coefficient of a quantized value. 32 bits do not hold every one.
pub fn dequantized(q: i32, step: u32) -> i64
    requires { step ≤ step_limit }
    ensures { result ≡ spec.dequantized q step }
{
    i64::from(8 * step) * i64::from(q)
}

// Whether a dequantized coefficient is beyond its limit.
pub fn dequantized_beyond(z: i64) -> bool
    ensures { result ≡ beyond dequantized_limit z }
{
    (z < -DEQUANTIZED_LIMIT) | (DEQUANTIZED_LIMIT < z)
}
