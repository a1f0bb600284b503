// The 8-point step over a row of elements (01, "Elements") that have only some components, the others being 0, as is so of what stands at one place of a block's
// columns after the first pass: c_4 at the frequencies 0 and 4, c_2 and c_6 at 2 and 6, and the odd ones at the odd frequencies.
//
// The step is linear over the ring: a row's step is the sum, over the components that the row has, of c_k times the step of the whole numbers that stand
// there (`by_parts`). So each step here is made of `even` and `odd` of `integer_step`. And conjugation takes a row of a block's elements to
// another one (`conjugate-step`), with nothing to add up.
//
// 32 bits suffice: the parts of 23 bits need 27 after the step, 28 after the product, and 30 after the sum of four.
#![tactic(auto)]

ghost use Rattle.std.specs.Prelude.{◌≡◌, ◌*◌, ◌+◌, ◌<◌};
ghost use Rattle.ring.specs.Maps as maps;
ghost use Rattle.dct.specs.Rows.{conjugate_row, fours, odds, twos};
ghost use Rattle.dct.specs.Transform as dct;
ghost use Rattle.elements.specs.Bound.{bit_limit, headroom};
ghost use Rattle.elements.specs.Buffer.{Row, item};
ghost use Rattle.element_rows.specs.Room.{Room};
ghost use Rattle.element_steps.specs.Class.{OnlyComponents, part_step};

use element_rows::{add_each, join, times_half};
use elements::{Element, along, conjugate, negate};
use integer_step::{even, odd};

// Kept: `Room` and `OnlyComponents`, and the bounds of a constant, are clauses: a row is an array of elements by value, and a const parameter carries no fact.

// Component k of each element, as a whole number, for k from 1 to 7.
fn parts(x: [Element; 8], k: usize) -> [Element; 8]
    requires room { Room 8 (bit_limit 23) x }
    requires k_nonzero { 0 < k }
    requires k_bound { k < 8 }
    ensures row { Row 8 (λ n. maps.part (item x n) k) result }
    ensures room_2 { Room 8 (bit_limit 23) result }
{
    let mut r = x;
    for n in 0..8 {
        r[n] = along(x[n], k);
    }
    r
}

// c_K times half of the frequencies of the whole numbers at component K, for K from 1 to 7: the even ones where ODD is 0, and the odd ones where it is 1. Both are
// constants, so that the compiler works the products into each instance, and leaves out what is zero there.
fn part_half<const K: usize, const ODD: usize>(x: [Element; 8]) -> [Element; 4]
    requires room { Room 8 (bit_limit 23) x }
    requires k_nonzero { 0 < K }
    requires k_bound { K < 8 }
    requires odd_bound { ODD < 2 }
    ensures row { Row 4 (λ i. part_step x K (2 * i + ODD)) result }
    ensures room { Room 4 (bit_limit 28) result }
{
    let a = parts(x, K);
    if ODD == 0 {
        return times_half(even(a), K);
    }
    times_half(odd(a), K)
}

// c_K times the step over those whole numbers.
pub fn part_step<const K: usize>(x: [Element; 8]) -> [Element; 8]
    requires room { Room 8 (bit_limit 23) x }
    requires k_nonzero { 0 < K }
    requires k_bound { K < 8 }
    ensures row { Row 8 (part_step x K) result }
    ensures room { Room 8 (bit_limit 28) result }
{
    join(part_half::<K, 0>(x), part_half::<K, 1>(x))
}

// The step over a row of multiples of c_4.
pub fn fours_step(x: [Element; 8]) -> [Element; 8]
    requires room { Room 8 (bit_limit 23) x }
    requires only_components { OnlyComponents 1 fours x }
    ensures { Row 8 (dct.step (item x)) result }
{
    part_step::<4>(x)
}

// The step over a row of sums of multiples of c_2 and c_6.
pub fn twos_step(x: [Element; 8]) -> [Element; 8]
    requires room { Room 8 (bit_limit 23) x }
    requires only_components { OnlyComponents 2 twos x }
    ensures { Row 8 (dct.step (item x)) result }
{
    let e = add_each(part_half::<2, 0>(x), part_half::<6, 0>(x));
    let o = add_each(part_half::<2, 1>(x), part_half::<6, 1>(x));
    join(e, o)
}

// Half of the frequencies of sums of multiples of c_1, c_3, c_5 and c_7.
fn odds_half<const ODD: usize>(x: [Element; 8]) -> [Element; 4]
    requires room { Room 8 (bit_limit 23) x }
    requires odd_bound { ODD < 2 }
    requires only_components { OnlyComponents 4 odds x }
    ensures { Row 4 (λ i. dct.step (item x) (2 * i + ODD)) result }
{
    let two = add_each(part_half::<1, ODD>(x), part_half::<3, ODD>(x));
    let three = add_each(two, part_half::<5, ODD>(x));
    add_each(three, part_half::<7, ODD>(x))
}

// The step over a row of such sums.
pub fn odds_step(x: [Element; 8]) -> [Element; 8]
    requires room { Room 8 (bit_limit 23) x }
    requires only_components { OnlyComponents 4 odds x }
    ensures { Row 8 (dct.step (item x)) result }
{
    join(odds_half::<0>(x), odds_half::<1>(x))
}

// The conjugates of a row of frequencies, each at its place and with its sign.
pub fn conjugate_row(e: [Element; 8]) -> [Element; 8]
    requires { Room 8 headroom e }
    ensures { Row 8 (conjugate_row (item e)) result }
{
    [
        negate(conjugate(e[0])),
        negate(conjugate(e[3])),
        conjugate(e[6]),
        conjugate(e[7]),
        negate(conjugate(e[4])),
        conjugate(e[1]),
        negate(conjugate(e[2])),
        conjugate(e[5]),
    ]
}
