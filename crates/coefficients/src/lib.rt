// The coefficients of elements at a width (01, "Rounding at a width"), in eighths.
//
// The functions for one element take its halvings, and serve two and three dimensions. 64 bits suffice: no table number is above 2^(b+1), nor b above
// 26, so that N and its terms are at most 2^27 times the limit of the magnitudes (`largest`): for that of three dimensions, 2^26, this is 2^53. In 32
// bits the products would wrap at each b.
#![tactic(auto)]

ghost use Rattle.std.specs.Prelude.{◌≡◌, ◌^◌, ◌<◌, ◌≤◌, ◌+ℤ◌, ◌*ℤ◌};
ghost use Rattle.integers.specs.Kit.{T, false, pos};
ghost use Rattle.std.specs.Int.{w64};
ghost use Rattle.std.proofs.Common.{SFits};
ghost use Rattle.limits.specs.Limits.{halvings, places};
ghost use Rattle.ring.specs.Element.{magnitudes};
ghost use Rattle.rounding_error.specs.Width as formula;
ghost use Rattle.coefficients.specs.Preconditions.{HalfZero, Halvings, Ready, Terms, ample_limit};
ghost use Rattle.coefficients.specs.Coefficients.{coefficients_of};
ghost use Rattle.coefficients.specs.Tables as tables;
ghost use Rattle.coefficients.specs.Widths as widths;

use elements::{Element, element_at};
use limits::{HALVINGS, PLACES};

// The table numbers m_1 to m_7 at each width.
const NUMBERS_11: [i64; 7] = [4017, 3784, 3406, 2896, 2276, 1567, 799];

const NUMBERS_20: [i64; 7] = [2056856, 1937516, 1743718, 1482910, 1165115, 802545, 409134];

const NUMBERS_26: [i64; 7] = [
    131638772, 124001012, 111597962, 94906266, 74567374, 51362901, 26184580,
];

// A width: the numbers b at which coefficients are made.
#[derive(Clone, Copy, PartialEq, Eq)]
pub enum Width {
    Eleven,
    Twenty,
    TwentySix,
}

// A number that is no width.
#[derive(Clone, Copy, PartialEq, Eq)]
pub struct NoWidth;

impl Width {
    // The number b.
    pub fn bits(self) -> u32
        ensures { result ≡ widths.bits self }
    {
        match self {
            Width::Eleven => 11,
            Width::Twenty => 20,
            Width::TwentySix => 26,
        }
    }

    // Its table numbers, m_1 to m_7.
    pub fn numbers(self) -> [i64; 7]
        ensures { result ≡ tables.table_numbers (widths.bits self) }
    {
        match self {
            Width::Eleven => NUMBERS_11,
            Width::Twenty => NUMBERS_20,
            Width::TwentySix => NUMBERS_26,
        }
    }

    // Both, read once for all elements of a set.
    fn table(self) -> Table
        ensures { result.bits ≡ widths.bits self }
    {
        Table {
            bits: self.bits(),
            numbers: self.numbers(),
        }
    }
}

// A width's number b, and its table numbers m_1 to m_7.
#[derive(Clone, Copy)]
struct Table {
    bits: u32,
    numbers: [i64; 7],
    ghost at_width: { T (tables.width bits) },
    ghost are_numbers: { numbers ≡ tables.table_numbers bits },
}

impl TryFrom<u32> for Width {
    type Error = NoWidth;

    ghost try_from_gives = { widths.Read };

    fn try_from(b: u32) -> Result<Self, NoWidth> {
        match b {
            11 => Ok(Width::Eleven),
            20 => Ok(Width::Twenty),
            26 => Ok(Width::TwentySix),
            _ => Err(NoWidth),
        }
    }
}

// s + x·y, where it fits.
fn plus_product(s: i64, x: i64, y: i32) -> i64
    requires sfits { SFits w64 (x *ℤ y) }
    requires sfits_2 { SFits w64 (s +ℤ x *ℤ y) }
    ensures { result ≡ s +ℤ x *ℤ y }
{
    let wide = y as i64;
    s + x * wide
}

// An element whose magnitudes sum to no more than this code allows for.
#[derive(Clone, Copy)]
struct Bounded {
    element: Element,
    ghost in_limit: { magnitudes element.components ≤ ample_limit },
}

impl Bounded {
    // Whether a component is not 0, of those besides u_0 whose index is even for h = 0 and odd for h = 1.
    fn half_used(self, h: usize) -> bool
        requires { h < 2 }
        ensures { result ≡ false → HalfZero h self.element.components }
    {
        let u = self.element.components;
        let mut r = false;
        for k in (2 - h..8).step_by(2) {
            r |= u[k] != 0;
        }
        r
    }
}

impl Table {
    // 2^b
    fn power(self) -> i64
        ensures { result ≡ pos (2 ^ self.bits) }
    {
        1i64 << self.bits
    }

    // N, of which the terms from m_(first+1) on are summed in steps, and the others are 0.
    fn sum_of_terms(self, u: Bounded, first: usize, step: usize) -> i64
        requires { Terms u.element.components first step }
        ensures { result ≡ formula.numerator self.bits self.numbers u.element.components }
    {
        let a = u.element.components;
        let numbers = self.numbers;
        let mut n = plus_product(0, self.power(), a[0]);
        for k in (first..7).step_by(step) {
            n = plus_product(n, numbers[k], a[k + 1]);
        }
        n
    }

    // N = 2^b·u_0 + m_1·u_1 + ... + m_7·u_7. Of each element of a block's set one half is 0, which saves its products.
    fn numerator(self, u: Bounded) -> i64
        ensures { result ≡ formula.numerator self.bits self.numbers u.element.components }
    {
        if !u.half_used(0) {
            return self.sum_of_terms(u, 0, 2);
        }
        if !u.half_used(1) {
            return self.sum_of_terms(u, 1, 2);
        }
        self.sum_of_terms(u, 0, 1)
    }

    // The whole number nearest to N/2^(b+h), with h halvings; a half goes away from zero. Twice that quotient, rounded down, plus 1, divided by 2 and
    // rounded down, is the nearest number, at a half the upper one. From a negative N first 1 is taken, since `n >> 63` is -1 for it and 0 for others: its
    // half then goes down, and nothing else changes.
    fn coefficient(self, u: Bounded, halvings: u32) -> i32
        requires { Halvings halvings }
        ensures { result ≡ formula.coefficient halvings self.bits self.numbers u.element.components }
    {
        let n = self.numerator(u);
        let twice = (n + (n >> 63)) >> (self.bits + halvings - 1);
        let y = (twice + 1) >> 1;
        y as i32
    }
}

// Every coefficient of an accepted set. Its places and halvings are constants: as parameters they have the compiler work it into the loop over a sheet's
// blocks, which then takes longer.
pub fn fill(elements: &[i32], width: Width, coefficients: &mut [i32])
    requires { Ready places halvings elements.now coefficients.old }
    ensures { coefficients.new ≡ coefficients_of 2 (widths.bits width) elements.now }
{
    let table = width.table();
    for i in 0..PLACES {
        let element = element_at(elements, i);
        coefficients[i] = table.coefficient(Bounded { element }, HALVINGS);
    }
}
