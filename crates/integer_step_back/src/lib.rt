// The transpose of the 8-point step over one row of elements, of which one whole number is kept at each place: half of component 0 of what it
// makes (`integer_back`), which is a sum of components of the row. It takes c_k times the step of a row to 16 times component k of that row,
// for k from 1 to 7 (`integer_inverse`).
//
// It is factorised as the step is: the even frequencies and the odd ones by themselves give what they sum to at the places 0 to 3, and butterflies,
// sums and differences, all eight places.
//
// 32 bits suffice: a sum of eight numbers of 24 bits needs 27.
#![tactic(auto)]

ghost use Rattle.std.specs.Prelude.{◌≡◌, ◌%◌, ◌-◌, ◌<◌, ◌+ℤ◌, slice_index, ℕ};
ghost use Rattle.ring.specs.Element as ring;
ghost use Rattle.dct.specs.Inverse.{half_back, integer_back};
ghost use Rattle.elements.specs.Bound.{bit_limit, headroom};
ghost use Rattle.elements.specs.Buffer.{Row, item};
ghost use Rattle.element_rows.specs.Room.{Room};
ghost use Rattle.integer_step_back.specs.Combination.{along_sum};

use element_rows::add_each;
use elements::{Element, add_four, along, subtract};

// Kept: `Room` is a clause, and no part of a type, for the reason that stands in `elements` of `Within`.

// The angles of the frequencies 0, 2, 4 and 6, and then of 1, 3, 5 and 7, at each of the places 0 to 3: 4 at frequency 0, and (2n+1)·k at any other.
const ANGLES: [[[usize; 4]; 4]; 2] = [
    [
        [4, 2, 4, 6],
        [4, 6, 12, 18],
        [4, 10, 20, 30],
        [4, 14, 28, 42],
    ],
    [
        [1, 3, 5, 7],
        [3, 9, 15, 21],
        [5, 15, 25, 35],
        [7, 21, 35, 49],
    ],
];

// The sum of the components of four elements, each along the cosine of its angle, none of which is a multiple of 8.
fn combination_back(r: [Element; 4], angles: [usize; 4]) -> Element
    requires room { Room 4 (bit_limit 24) r }
    requires nonzero { (k : ℕ) → k < 4 → 0 < slice_index angles k % 8 }
    ensures { result.components ≡ ring.integer (along_sum (item r) (slice_index angles 0) (slice_index angles 1) (slice_index angles 2) (slice_index angles 3)) }
{
    add_four(
        along(r[0], angles[0]),
        along(r[1], angles[1]),
        along(r[2], angles[2]),
        along(r[3], angles[3]),
    )
}

// What the even frequencies of a row, where P is 0, or the odd ones, where P is 1, give at place n.
fn half_at<const P: usize>(x: [Element; 4], n: usize) -> Element
    requires parity { P < 2 }
    requires room { Room 4 (bit_limit 24) x }
    requires n_bound { n < 4 }
    ensures { result.components ≡ ring.integer (half_back P (item x) n) }
{
    combination_back(x, ANGLES[P][n])
}

// What they give at the places 0 to 3.
fn half_back<const P: usize>(x: [Element; 4]) -> [Element; 4]
    requires parity { P < 2 }
    requires room { Room 4 (bit_limit 24) x }
    ensures { Row 4 (λ n. ring.integer (half_back P (item x) n)) result }
{
    [
        half_at::<P>(x, 0),
        half_at::<P>(x, 1),
        half_at::<P>(x, 2),
        half_at::<P>(x, 3),
    ]
}

// The differences of four elements and four others, the last of them first.
fn differences(x: [Element; 4], y: [Element; 4]) -> [Element; 4]
    requires room { Room 4 headroom x }
    requires room_2 { Room 4 headroom y }
    ensures { Row 4 (λ n. ring.subtract (item x (3 - n)) (item y (3 - n))) result }
{
    [
        subtract(x[3], y[3]),
        subtract(x[2], y[2]),
        subtract(x[1], y[1]),
        subtract(x[0], y[0]),
    ]
}

// What the even and the odd frequencies of a row give together. Differences are computed before sums, since the compiled code is shorter so.
fn from_halves(even: [Element; 4], odd: [Element; 4]) -> [Element; 8]
    requires room { Room 4 (bit_limit 24) even }
    requires room_2 { Room 4 (bit_limit 24) odd }
    ensures { Row 8 (λ n. ring.integer (half_back 0 (item even) n +ℤ half_back 1 (item odd) n)) result }
{
    let e = half_back::<0>(even);
    let o = half_back::<1>(odd);
    let d = differences(e, o);
    let s = add_each(e, o);
    [s[0], s[1], s[2], s[3], d[0], d[1], d[2], d[3]]
}

// The transpose of the step over one row.
pub fn integer_step_back(x: [Element; 8]) -> [Element; 8]
    requires { Room 8 (bit_limit 24) x }
    ensures { Row 8 (λ n. ring.integer (integer_back (item x) n)) result }
{
    from_halves([x[0], x[2], x[4], x[6]], [x[1], x[3], x[5], x[7]])
}
