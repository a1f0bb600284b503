// Sum and difference of two i32 as functions, so that where one is stored into an array only its fit is asked for; the magnitude of an i32 in 64 bits; ranges;
// and which of some items is the first that passes a test.
#![tactic(auto)]

ghost use Rattle.std.specs.Prelude.{◌≡◌, ◌+ℤ◌, ◌-ℤ◌};
ghost use Rattle.integers.specs.Kit.{Bool, ℕ, nat_abs, length};
ghost use Rattle.std.proofs.Common.{SFits};
ghost use Rattle.std.specs.Int.{w32};
ghost use Rattle.integers.specs.Range as range;
ghost use Rattle.integers.specs.Search.{any, found, Tests};

// x + y, where it fits.
pub fn plus(x: i32, y: i32) -> i32
    requires { SFits w32 (x +ℤ y) }
    ensures { result ≡ x +ℤ y }
{
    x + y
}

// x - y, where it fits.
pub fn minus(x: i32, y: i32) -> i32
    requires { SFits w32 (x -ℤ y) }
    ensures { result ≡ x -ℤ y }
{
    x - y
}

// The magnitude of x, in a type that holds the sum of eight.
pub fn magnitude(x: i32) -> u64
    ensures { result ≡ nat_abs x }
{
    x.unsigned_abs() as u64
}

// A range of whole numbers, both ends of which belong to it.
#[derive(Clone, Copy, PartialEq, Eq)]
pub struct Interval {
    pub lowest: i32,
    pub highest: i32,
}

impl Interval {
    // Whether x lies outside.
    pub fn excludes(self, x: i32) -> bool
        ensures { result ≡ range.outside self.lowest self.highest x }
    {
        x < self.lowest || self.highest < x
    }

    // Whether any number does.
    pub fn any_outside(self, numbers: &[i32]) -> bool
        ensures { result ≡ any (length numbers.now) (range.outside_at self.lowest self.highest numbers.now) }
    {
        any(numbers, &|x| self.excludes(x))
    }

    // The lowest index of a number that does, if there is one.
    pub fn first_outside(self, numbers: &[i32]) -> Option<usize>
        ensures { result ≡ found (length numbers.now) (range.outside_at self.lowest self.highest numbers.now) }
    {
        first(numbers, |x| self.excludes(x))
    }
}

// Whether any item passes the test. The loop has no early exit, so that the compiler takes several items at a time.
fn any<T: Copy, F: Fn(T) -> bool>(items: &[T], test: &F) -> bool
    requires { F.IsAlwaysCallable test.now }
    ensures { (passes : ℕ → Bool) → Tests (F.post test.now) items.now passes → result ≡ any (length items.now) passes }
{
    let mut r = false;
    for x in items {
        r = r | test(*x);
    }
    r
}

// The lowest index of an item that passes the test, if there is one: items are looked at one after the other only where there is.
pub fn first<T: Copy, F: Fn(T) -> bool>(items: &[T], test: F) -> Option<usize>
    requires { F.IsAlwaysCallable test }
    ensures { (passes : ℕ → Bool) → Tests (F.post test) items.now passes → result ≡ found (length items.now) passes }
{
    if !any(items, &test) {
        return None;
    }
    for (i, x) in items.iter().enumerate() {
        if test(*x) {
            return Some(i);
        }
    }
    None
}
