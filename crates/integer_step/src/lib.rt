// The 8-point step over one row of whole numbers (01, "Elements"): for each frequency k the sum over n of t(k,n) × x_n. The components of
// the row's elements besides component 0 are ignored. The columns of a block are such rows, and so is what stands at one component of any row:
// a step over elements is made of steps over their parts.
//
// It is factorised: butterflies first, the sums x_n + x_(7-n) and the differences x_n - x_(7-n), n from 0 to 3; then the even frequencies from the
// sums, and the odd ones from the differences, each of four products in place of eight. A product of a whole number with c_m needs no addition,
// since c_m is plus or minus one of c_1 to c_7.
//
// 32 bits suffice: a component of a frequency is a sum of at most eight of the numbers, which adds three bits; they may have 27.
#![tactic(auto)]

ghost use Rattle.std.specs.Prelude.{◌%◌, ◌*◌, ◌+◌, ◌-◌, ◌<◌, ◌≡◌, slice_index, ℕ};
ghost use Rattle.ring.specs.Element as ring;
ghost use Rattle.ring.specs.Maps.{part};
ghost use Rattle.dct.specs.Transform as dct;
ghost use Rattle.elements.specs.Bound.{Within, bit_limit};
ghost use Rattle.elements.specs.Buffer.{Row, item};
ghost use Rattle.element_rows.specs.Room.{Room};
ghost use Rattle.integer_step.specs.Combination as spec;

use element_rows::join;
use elements::{Element, add, add_four, subtract, times_integer};

// Kept: `Room` is a clause, and no part of a type, for the reason that stands in `elements` of `Within`.

// The angles at the places 0 to 3 of the frequencies 0, 2, 4 and 6, and then of 1, 3, 5 and 7: 4 at frequency 0, and (2n+1)·k at any other.
const ANGLES: [[[usize; 4]; 4]; 2] = [
    [
        [4, 4, 4, 4],
        [2, 6, 10, 14],
        [4, 12, 20, 28],
        [6, 18, 30, 42],
    ],
    [
        [1, 3, 5, 7],
        [3, 9, 15, 21],
        [5, 15, 25, 35],
        [7, 21, 35, 49],
    ],
];

// Number n of four, times c_m, for m no multiple of 8.
fn term(r: [Element; 4], n: usize, m: usize) -> Element
    requires room { Room 4 (bit_limit 28) r }
    requires n_bound { n < 4 }
    requires nonzero { 0 < m % 8 }
    ensures components_value { result.components ≡ spec.term (item r) n m }
    ensures within { Within (bit_limit 28) result.components }
{
    times_integer(r[n], m)
}

// The sum of four numbers, each times the cosine of its angle, none of which is a multiple of 8. This and `half_at` are inlined, so that the compiler
// knows the angles and the table vanishes: else forward takes 24,861 instructions a block in place of 1,554.
#[inline(always)]
fn combination(r: [Element; 4], angles: [usize; 4]) -> Element
    requires room { Room 4 (bit_limit 28) r }
    requires nonzero { (n : ℕ) → n < 4 → 0 < slice_index angles n % 8 }
    ensures { result.components ≡ spec.cosine_sum (item r) (slice_index angles 0) (slice_index angles 1) (slice_index angles 2) (slice_index angles 3) }
{
    add_four(
        term(r, 0, angles[0]),
        term(r, 1, angles[1]),
        term(r, 2, angles[2]),
        term(r, 3, angles[3]),
    )
}

// What four numbers, the sums or the differences, give at frequency 2i where P is 0, or at 2i+1 where P is 1.
#[inline(always)]
fn half_at<const P: usize>(r: [Element; 4], i: usize) -> Element
    requires parity { P < 2 }
    requires room { Room 4 (bit_limit 28) r }
    requires i_bound { i < 4 }
    ensures { result.components ≡ dct.half_step (λ n. part (item r n) 0) (2 * i + P) }
{
    combination(r, ANGLES[P][i])
}

// What they give at the four even frequencies, where P is 0, or at the odd ones, where P is 1.
fn half<const P: usize>(r: [Element; 4]) -> [Element; 4]
    requires parity { P < 2 }
    requires room { Room 4 (bit_limit 28) r }
    ensures { Row 4 (λ i. dct.half_step (λ n. part (item r n) 0) (2 * i + P)) result }
{
    [
        half_at::<P>(r, 0),
        half_at::<P>(r, 1),
        half_at::<P>(r, 2),
        half_at::<P>(r, 3),
    ]
}

// The sums x_n + x_(7-n), for n from 0 to 3.
fn sums(x: [Element; 8]) -> [Element; 4]
    requires { Room 8 (bit_limit 27) x }
    ensures row { Row 4 (λ n. ring.add (item x n) (item x (7 - n))) result }
    ensures room { Room 4 (bit_limit 28) result }
{
    [
        add(x[0], x[7]),
        add(x[1], x[6]),
        add(x[2], x[5]),
        add(x[3], x[4]),
    ]
}

// The differences x_n - x_(7-n), for n from 0 to 3.
fn differences(x: [Element; 8]) -> [Element; 4]
    requires { Room 8 (bit_limit 27) x }
    ensures row { Row 4 (λ n. ring.subtract (item x n) (item x (7 - n))) result }
    ensures room { Room 4 (bit_limit 28) result }
{
    [
        subtract(x[0], x[7]),
        subtract(x[1], x[6]),
        subtract(x[2], x[5]),
        subtract(x[3], x[4]),
    ]
}

// The frequencies 0, 2, 4 and 6, from the sums.
pub fn even(x: [Element; 8]) -> [Element; 4]
    requires { Room 8 (bit_limit 27) x }
    ensures { Row 4 (λ i. dct.step (λ n. part (item x n) 0) (2 * i)) result }
{
    half::<0>(sums(x))
}

// The frequencies 1, 3, 5 and 7, from the differences.
pub fn odd(x: [Element; 8]) -> [Element; 4]
    requires { Room 8 (bit_limit 27) x }
    ensures { Row 4 (λ i. dct.step (λ n. part (item x n) 0) (2 * i + 1)) result }
{
    half::<1>(differences(x))
}

// The step over one row.
pub fn integer_step(x: [Element; 8]) -> [Element; 8]
    requires { Room 8 (bit_limit 27) x }
    ensures { Row 8 (dct.step (λ n. part (item x n) 0)) result }
{
    join(even(x), odd(x))
}
