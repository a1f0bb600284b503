// Sets of elements in a buffer (01, "Rounding at a width"). The jobs that take a set turn back one in which an element's magnitudes sum above the
// limit, by 01's cause 4; what forward writes for a block in range is within it (`block-set`).
//
// `first_above` finds the element that cause 4 names. The sums are u64: eight magnitudes of 2^31 each do not fit 32 bits.
#![tactic(auto)]

ghost use Rattle.std.specs.Prelude.{◌≡◌, ◌/◌};
ghost use Rattle.integers.specs.Kit.{length};
ghost use Rattle.integers.specs.Search.{found};
ghost use Rattle.ring.specs.Element as ring;
ghost use Rattle.element_sets.specs.Sets.{above_limit};

use elements::{Element, element_at};
use integers::magnitude;

// The sum of the magnitudes of an element's components.
fn magnitudes(u: Element) -> u64
    ensures { result ≡ ring.magnitudes u.components }
{
    let mut sum = 0;
    for x in u.components {
        sum += magnitude(x);
    }
    sum
}

// The number of the first element whose magnitudes sum above the limit, if there is one.
// Kept: a loop of its own. An element is eight numbers and no item of the buffer; `integers::first` over its chunks would need a law of chunks, and a closure that makes
// elements of them: no plainer.
pub fn first_above(elements: &[i32], limit: u64) -> Option<usize>
    ensures { result ≡ found (length elements.now / 8) (above_limit limit elements.now) }
{
    for p in 0..elements.len() / 8 {
        if limit < magnitudes(element_at(elements, p)) {
            return Some(p);
        }
    }
    None
}
