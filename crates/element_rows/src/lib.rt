// Rows of elements, and halves of them: what the 8-point steps are made of. `Room` says how far the elements of a row may go.
#![tactic(auto)]

ghost use Rattle.std.specs.Prelude.{◌≡◌, ◌*◌, ◌+◌, ◌<◌};
ghost use Rattle.integers.specs.Kit.{pos};
ghost use Rattle.ring.specs.Element as ring;
ghost use Rattle.elements.specs.Bound.{headroom};
ghost use Rattle.elements.specs.Buffer.{Row, item, row};
ghost use Rattle.element_rows.specs.Room.{Room};

use elements::{Element, add, times};

// Kept: `Room` is a clause, and no part of a type, for the reason that stands in `elements` of `Within`.

// c_k times each of four elements, for k from 0 to 7. They are half of a row: where k is known, the compiler works so many products into the
// caller, and leaves out of them what is zero there.
pub fn times_half(x: [Element; 4], k: usize) -> [Element; 4]
    requires room { Room 4 headroom x }
    requires k_bound { k < 8 }
    ensures { Row 4 (λ n. ring.mul (ring.cosine (pos k)) (item x n)) result }
{
    [
        times(x[0], k),
        times(x[1], k),
        times(x[2], k),
        times(x[3], k),
    ]
}

// The sums of the elements of two rows, or of two halves.
pub fn add_each<const N: usize>(x: [Element; N], y: [Element; N]) -> [Element; N]
    requires room { Room N headroom x }
    requires room_2 { Room N headroom y }
    ensures { Row N (λ n. ring.add (item x.entry n) (item y.entry n)) result }
{
    let mut r = x;
    for n in 0..N {
        r[n] = add(x[n], y[n]);
    }
    r
}

// Column u of an 8 by 8 array: element u of each of its rows.
pub fn across(x: [[Element; 8]; 8], u: usize) -> [Element; 8]
    requires { u < 8 }
    ensures { Row 8 (λ j. item (row x j) u) result }
{
    [
        x[0][u], x[1][u], x[2][u], x[3][u], x[4][u], x[5][u], x[6][u], x[7][u],
    ]
}

// A row from its even and its odd frequencies: element 2i is e_i, and 2i + 1 is o_i.
pub fn join(e: [Element; 4], o: [Element; 4]) -> [Element; 8]
    ensures row { Row 4 (λ i. item result (2 * i)) e }
    ensures row_2 { Row 4 (λ i. item result (2 * i + 1)) o }
{
    [e[0], o[0], e[1], o[1], e[2], o[2], e[3], o[3]]
}
