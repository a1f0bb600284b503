// The orientations of a block (02, request 1), on its elements: each comes from one place, as itself or as its negative.
//
// 32 bits suffice: in an accepted set no component is above the limit of an element's magnitudes, and its negative is as large.
#![tactic(auto)]

ghost use Rattle.std.specs.Prelude.{◌≡◌, ◌<◌};
ghost use Rattle.integers.specs.Kit.{cond, negsuc, pos, length};
ghost use Rattle.limits.specs.Limits.{components_size, magnitudes_limit, places};
ghost use Rattle.ring.specs.Element as ring;
ghost use Rattle.elements.specs.Bound.{Within, headroom};
ghost use Rattle.element_sets.specs.Sets.{AcceptedSet};
ghost use Rattle.orientations.specs.Orientation as spec;

use elements::{Element, element_at, negate, put};
use limits::PLACES;

// There are eight, 0 to 7.
pub const ORIENTATIONS: u32 = 8;

// An orientation by its number, which is also its row and column in the table.
#[derive(Clone, Copy, PartialEq, Eq)]
pub struct Orientation {
    pub number: usize,
    pub ghost known: { number < spec.orientations },
}

// A number that no orientation has.
#[derive(Clone, Copy, PartialEq, Eq)]
pub struct NoOrientation;

impl TryFrom<u32> for Orientation {
    ghost use Rattle.orientations.specs.Numbers.{Read};

    type Error = NoOrientation;

    ghost try_from_gives = { Read };

    fn try_from(number: u32) -> Result<Self, NoOrientation> {
        if number >= ORIENTATIONS {
            return Err(NoOrientation);
        }
        Ok(Orientation {
            number: number as usize,
        })
    }
}

// The orientation that the first, which names the row, is when followed by the second, which names the column.
const COMPOSITIONS: [[usize; 8]; 8] = [
    [0, 1, 2, 3, 4, 5, 6, 7],
    [1, 0, 3, 2, 6, 7, 4, 5],
    [2, 3, 0, 1, 5, 4, 7, 6],
    [3, 2, 1, 0, 7, 6, 5, 4],
    [4, 5, 6, 7, 0, 1, 2, 3],
    [5, 4, 7, 6, 2, 3, 0, 1],
    [6, 7, 4, 5, 1, 0, 3, 2],
    [7, 6, 5, 4, 3, 2, 1, 0],
];

pub fn composed(first: Orientation, second: Orientation) -> Orientation
    ensures { result.number ≡ spec.composed first.number second.number }
{
    Orientation {
        number: COMPOSITIONS[first.number][second.number],
    }
}

impl Orientation {
    // The number of the element that comes to the place p.
    fn source(self, p: usize) -> usize
        requires { p < places }
        ensures { result ≡ spec.source self.number p }
    {
        if self.number < 4 {
            return p;
        }
        8 * (p % 8) + p / 8
    }

    // Whether it comes as its negative: mirrored left and right where v is odd, top and bottom where u is; one negation cancels the other.
    fn is_negated(self, p: usize) -> bool
        requires { p < places }
        ensures { spec.sign self.number p ≡ cond result (negsuc 0) (pos 1) }
    {
        let across = (self.number % 2 == 1) & (p % 2 == 1);
        let down = (self.number / 2 % 2 == 1) & (p / 8 % 2 == 1);
        across != down
    }
}

// An element or its negative.
fn signed(a: Element, negated: bool) -> Element
    requires { Within headroom a.components }
    ensures { result.components ≡ ring.scale (cond negated (negsuc 0) (pos 1)) a.components }
{
    if negated {
        return negate(a);
    }
    a
}

// The elements of an accepted set, each at its place and with its sign.
pub fn orient(elements: &[i32], orientation: Orientation, output: &mut [i32])
    requires accepted_set { AcceptedSet places magnitudes_limit elements.now }
    requires output_len { length output.old ≡ components_size }
    ensures { output.new ≡ spec.reoriented_elements orientation.number elements.now }
{
    for p in 0..PLACES {
        let a = element_at(elements, orientation.source(p));
        put(output, p, signed(a, orientation.is_negated(p)));
    }
}
