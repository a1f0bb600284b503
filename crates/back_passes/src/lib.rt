// The passes of the way back: the block that has given elements, if there is one.
//
// The work goes by rows, then columns, and undoes forward's steps, as far as a block is known by: a column is known by c_4 of its frequencies 0 and 4,
// c_2 and c_6 of 2, and c_1, c_3, c_5, c_7 of 1 (`column-restored`), so that the rows 0, 4, 2 and 1 of the elements suffice. Component k of what
// the transpose of the step makes of a row is half of component 0 of what it makes of c_k times that row, and `integer_step_back` makes these halves.
// Then each sample is a sum of four of them. For the elements of a block all this is 128 times the samples (`Restores`); for any others something
// comes out that does not have them.
//
// 32 bits suffice: the limit, 2^22, needs 23 bits, c_k times an element 24, the transpose 27, and the sums of a column 30.
#![tactic(auto)]

ghost use Rattle.std.specs.Prelude.{◌≡◌, ◌%◌, ◌*◌, ◌+◌, ◌/◌, ◌<◌, ◌≤◌, ◌+ℤ◌};
ghost use Rattle.integers.specs.Kit.{nat_abs, pos};
ghost use Rattle.std.specs.Int.Signed.{shr_z};
ghost use Rattle.integers.specs.Table.{PartStored, table};
ghost use Rattle.ring.specs.Element as ring;
ghost use Rattle.dct.specs.Inverse.{half_back, weighted};
ghost use Rattle.limits.specs.Limits.{places};
ghost use Rattle.elements.specs.Bound.{bit_limit, headroom};
ghost use Rattle.elements.specs.Buffer.{Row, Rows, element_at, item, row};
ghost use Rattle.element_rows.specs.Room.{Room};
ghost use Rattle.back_passes.specs.Passes as passes;

use element_rows::{across, join, times_half};
use elements::{Element, add_four, component, element_at, multiple};
use integer_step_back::integer_step_back;
use limits::{COMPONENTS, PLACES};

// Kept: `Limited` is a clause: the elements are lent as they came, and a type round them would be made only to be taken apart.

// The numbers of the elements that are read, which stand in the rows 0 to 4.
pub const READ_SIZE: usize = COMPONENTS / 8 * 5;

// The elements p, p+2, p+4 and p+6: half of a row.
fn half_of(elements: &[i32; COMPONENTS], p: usize) -> [Element; 4]
    requires { p + 6 < places }
    ensures { Row 4 (λ i. element_at elements.now (p + 2 * i)) result }
{
    [
        element_at(elements, p),
        element_at(elements, p + 2),
        element_at(elements, p + 4),
        element_at(elements, p + 6),
    ]
}

// c_k times each of them.
fn half_product(elements: &[i32; COMPONENTS], p: usize, k: usize) -> [Element; 4]
    requires limited { passes.Limited elements.now }
    requires p_bound { p + 6 < passes.read_places }
    requires k_bound { k < 8 }
    ensures { Row 4 (λ i. ring.mul (ring.cosine (pos k)) (element_at elements.now (p + 2 * i))) result }
{
    times_half(half_of(elements, p), k)
}

// A row from its even and its odd frequencies, and the transpose of the step over it.
fn row_back(even: [Element; 4], odd: [Element; 4]) -> [Element; 8]
    requires room { Room 4 (bit_limit 24) even }
    requires room_2 { Room 4 (bit_limit 24) odd }
    ensures { Row 8 (λ n. ring.integer (half_back 0 (item even) n +ℤ half_back 1 (item odd) n)) result }
{
    integer_step_back(join(even, odd))
}

// c_k times row u of the elements, and the transpose of the step over it. It is inlined, so that the compiler knows u and k.
#[inline(always)]
fn product_back(elements: &[i32; COMPONENTS], u: usize, k: usize) -> [Element; 8]
    requires limited { passes.Limited elements.now }
    requires u_bound { u < 5 }
    requires k_bound { k < 8 }
    ensures { Row 8 (λ n. ring.integer (passes.row_back elements.now u k n)) result }
{
    row_back(
        half_product(elements, 8 * u, k),
        half_product(elements, 8 * u + 1, k),
    )
}

// The eight components by which the columns are known, 16 times each: c_4 of the rows 0 and 4, c_2 and c_6 of 2, and c_1, c_3, c_5, c_7 of 1.
fn rows_back(elements: &[i32; COMPONENTS]) -> [[Element; 8]; 8]
    requires { passes.Limited elements.now }
    ensures { Rows (λ k n. ring.integer (passes.known_row elements.now k n)) result }
{
    [
        product_back(elements, 0, 4),
        product_back(elements, 4, 4),
        product_back(elements, 2, 2),
        product_back(elements, 2, 6),
        product_back(elements, 1, 1),
        product_back(elements, 1, 3),
        product_back(elements, 1, 5),
        product_back(elements, 1, 7),
    ]
}

// The place of a number in a row, and how often it counts.
#[derive(Clone, Copy)]
struct Term(usize, i32);

// Of the numbers x by which a column is known, that of frequency 0, that of 4 w4 times, and one each of the frequencies 2 and 1.
fn four_terms(x: [Element; 8], w4: i32, two: Term, one: Term) -> Element
    requires room { Room 8 (bit_limit 27) x }
    requires w4_bound { nat_abs w4 ≤ 1 }
    requires two_place { two.0 < 8 }
    requires two_weight { nat_abs two.1 ≤ 2 }
    requires one_place { one.0 < 8 }
    requires one_weight { nat_abs one.1 ≤ 4 }
    ensures { result.components ≡ ring.integer (passes.four_terms (passes.numbers x) w4 two.0 two.1 one.0 one.1) }
{
    add_four(
        multiple(x[0], 1),
        multiple(x[1], w4),
        multiple(x[two.0], two.1),
        multiple(x[one.0], one.1),
    )
}

// A column from the components by which it is known.
fn column_back(x: [Element; 8]) -> [Element; 8]
    requires { Room 8 (bit_limit 27) x }
    ensures { Row 8 (λ n. ring.integer (weighted (passes.numbers x) n)) result }
{
    [
        four_terms(x, 1, Term(2, 2), Term(4, 4)),
        four_terms(x, -1, Term(3, 2), Term(5, 4)),
        four_terms(x, -1, Term(3, -2), Term(6, 4)),
        four_terms(x, 1, Term(2, -2), Term(7, 4)),
        four_terms(x, 1, Term(2, -2), Term(7, -4)),
        four_terms(x, -1, Term(3, -2), Term(6, -4)),
        four_terms(x, -1, Term(3, 2), Term(5, -4)),
        four_terms(x, 1, Term(2, 2), Term(4, -4)),
    ]
}

// The numbers of a row into column j of a block, divided by 128: `>>` on an i32 rounds down.
fn store_column(y: [Element; 8], j: usize, block: &mut [i32; PLACES])
    requires room { Room 8 headroom y }
    requires j_bound { j < 8 }
    ensures { PartStored (λ n. n % 8) j (λ n. shr_z (passes.numbers y (n / 8)) 128) block.old block.new }
{
    for (i, e) in y.iter().enumerate() {
        let z = component(*e, 0);
        block[8 * i + j] = z >> 7;
    }
}

// Column j of a block from what stands at place j of eight rows.
fn restore_column(x: [[Element; 8]; 8], j: usize, block: &mut [i32; PLACES])
    requires numbers { passes.Numbers x }
    requires j_bound { j < 8 }
    ensures { PartStored (λ n. n % 8) j (λ n. shr_z (weighted (λ k. ring.component (item (row x k) j) 0) (n / 8)) 128) block.old block.new }
{
    store_column(column_back(across(x, j)), j, block);
}

// The block of all columns.
// Kept: written out, and inlined, so that the compiler knows each index: by `for`, a block takes back 3,592 instructions in place of 2,563.
#[inline(always)]
fn block_of(x: [[Element; 8]; 8]) -> [i32; PLACES]
    requires { passes.Numbers x }
    ensures { result ≡ table places (λ n. shr_z (weighted (λ k. ring.component (item (row x k) (n % 8)) 0) (n / 8)) 128) }
{
    let mut block = [0i32; PLACES];
    restore_column(x, 0, &mut block);
    restore_column(x, 1, &mut block);
    restore_column(x, 2, &mut block);
    restore_column(x, 3, &mut block);
    restore_column(x, 4, &mut block);
    restore_column(x, 5, &mut block);
    restore_column(x, 6, &mut block);
    restore_column(x, 7, &mut block);
    block
}

// The block that has these elements, if there is one. If there is none, nothing is promised of what is returned.
pub fn restored(elements: &[i32]) -> [i32; PLACES]
    requires { passes.Limited elements.now }
    ensures { passes.Restores elements.now result }
{
    block_of(rows_back(elements.as_array().unwrap()))
}
