// The passes of forward: the exact elements of a block whose samples are in range (01, "Elements").
//
// The work goes by columns, then rows: a step over each column of whole numbers makes a row of eight elements, and a step over what stands
// at one place of these eight rows makes a row of the block's elements. What stands there has few components that are not 0, so that the rows 0, 4, 6
// and 1 take the step of their class (`element_steps`); row 2 is the conjugate of 6, and 5, 7 and 3 are those of 1, 5 and 7. Nothing is rounded or
// shifted on the way.
//
// 32 bits suffice: a sample's magnitude needs 16, the step over whole numbers adds three, and that over elements at most four (`small_step`): 23.
// `element_steps` allows for 23 before its step already.
#![tactic(auto)]

ghost use Rattle.std.specs.Prelude.{◌≡◌, ◌∷◌, ◌*◌, ◌+◌, ◌<◌};
ghost use Rattle.integers.specs.Kit.{[], length};
ghost use Rattle.integers.specs.Table.{table};
ghost use Rattle.ring.specs.Element as ring;
ghost use Rattle.limits.specs.Limits.{components_size, places};
ghost use Rattle.elements.specs.Buffer.{Row, Rows};
ghost use Rattle.blocks.specs.Blocks.{AllInRange, elements_of, frequencies, sample};
ghost use Rattle.forward_passes.specs.Rows.{Columns, RowStored, RowsStored, number_of};

use element_rows::across;
use element_steps::{conjugate_row, fours_step, odds_step, twos_step};
use elements::{Element, only, put};
use integer_step::integer_step;
use limits::{COMPONENTS, PLACES};

// Kept: `AllInRange` and `Columns` are clauses: samples are lent as they came, and the columns are an 8 by 8 array of elements by value, which a type would hide.

// Column j of a block, as a row of whole numbers.
fn column(samples: &[i32; PLACES], j: usize) -> [Element; 8]
    requires { j < 8 }
    ensures { Row 8 (λ i. ring.integer (sample samples.now (8 * i + j))) result }
{
    let mut r = [only(0, 0); 8];
    for i in 0..8 {
        r[i] = only(samples[8 * i + j], 0);
    }
    r
}

// The step over column j.
fn step_of_column(samples: &[i32; PLACES], j: usize) -> [Element; 8]
    requires all_in_range { AllInRange 2 samples.now }
    requires j_bound { j < 8 }
    ensures { Row 8 (frequencies samples.now j) result }
{
    integer_step(column(samples, j))
}

// The steps over all columns, each as a row.
// Kept: written out, so that the compiler knows each index: by `for` or `from_fn`, a block takes forward 2,218 instructions in place of 1,574.
fn columns(samples: &[i32; PLACES]) -> [[Element; 8]; 8]
    requires { AllInRange 2 samples.now }
    ensures { Rows (frequencies samples.now) result }
{
    [
        step_of_column(samples, 0),
        step_of_column(samples, 1),
        step_of_column(samples, 2),
        step_of_column(samples, 3),
        step_of_column(samples, 4),
        step_of_column(samples, 5),
        step_of_column(samples, 6),
        step_of_column(samples, 7),
    ]
}

// The elements of row u into a buffer.
fn store_row(e: [Element; 8], u: usize, elements: &mut [i32; COMPONENTS])
    requires { u < 8 }
    ensures { RowStored e u elements.old elements.new }
{
    for v in 0..8 {
        put(elements, 8 * u + v, e[v]);
    }
}

// The rows 0 and 4 into a buffer.
fn rows_0_4(x: [[Element; 8]; 8], elements: &mut [i32; COMPONENTS])
    requires { Columns x }
    ensures { RowsStored x (0 ∷ 4 ∷ []) elements.old elements.new }
{
    store_row(fours_step(across(x, 0)), 0, elements);
    store_row(fours_step(across(x, 4)), 4, elements);
}

// The row 6, and 2, its conjugate.
fn rows_6_2(x: [[Element; 8]; 8], elements: &mut [i32; COMPONENTS])
    requires { Columns x }
    ensures { RowsStored x (6 ∷ 2 ∷ []) elements.old elements.new }
{
    let e6 = twos_step(across(x, 6));
    store_row(e6, 6, elements);
    store_row(conjugate_row(e6), 2, elements);
}

// The row 1, and 5, 7 and 3, each the conjugate of the one before it.
fn odd_rows(x: [[Element; 8]; 8], elements: &mut [i32; COMPONENTS])
    requires { Columns x }
    ensures { RowsStored x (1 ∷ 5 ∷ 7 ∷ 3 ∷ []) elements.old elements.new }
{
    let e1 = odds_step(across(x, 1));
    let e5 = conjugate_row(e1);
    let e7 = conjugate_row(e5);
    let e3 = conjugate_row(e7);
    store_row(e1, 1, elements);
    store_row(e5, 5, elements);
    store_row(e7, 7, elements);
    store_row(e3, 3, elements);
}

// The elements of all rows into a buffer.
fn rows(x: [[Element; 8]; 8], elements: &mut [i32; COMPONENTS])
    requires { Columns x }
    ensures { elements.new ≡ table components_size (number_of x) }
{
    rows_0_4(x, elements);
    rows_6_2(x, elements);
    odd_rows(x, elements);
}

// Kept: slices, since its callers lend what they were lent; it makes arrays of them once.
// The exact elements of a block whose samples are in range.
pub fn transform(samples: &[i32], elements: &mut [i32])
    requires samples_len { length samples.now ≡ places }
    requires elements_len { length elements.old ≡ components_size }
    requires all_in_range { AllInRange 2 samples.now }
    ensures { elements.new ≡ elements_of 2 samples.now }
{
    let samples = samples.as_array().unwrap();
    let elements = elements.as_mut_array().unwrap();
    rows(columns(samples), elements);
}
