// The viewer's 32-bit floats (02, request 4): a coefficient in eighths, and the mean grey of a block. Each is a whole number below 2^24 in magnitude
// as an f32, which is exact, divided once by a power of two, which is exact too. And the lower and the higher of two floats.
#![tactic(auto)]

ghost use Rattle.std.specs.Prelude.{◌≡◌, ◌≤◌};
ghost use Rattle.integers.specs.Kit.{cond, nat_abs};
ghost use Rattle.std.specs.Float.Ieee.{lt};
ghost use Rattle.limits.specs.Limits.{coefficient_limit};
ghost use Rattle.floats.specs.Fraction as spec;

// A coefficient in eighths as a float.
pub fn coefficient_float(y: i32) -> f32
    requires { nat_abs y ≤ coefficient_limit }
    ensures { result ≡ spec.coefficient_float y }
{
    y as f32 / 8.0
}

// The mean grey of a block whose first coefficient in eighths is y.
pub fn mean_grey(y: i32) -> f32
    requires { nat_abs y ≤ coefficient_limit }
    ensures { result ≡ spec.mean_grey y }
{
    y as f32 / 64.0
}

// The lower of two floats.
// Kept: the library's `min` and `max` do not say which of 0 and -0 they give, and the contracts of `lower` and `higher` do, by IEEE's order (`lt`).
pub fn lower(x: f32, y: f32) -> f32
    ensures { result ≡ cond (lt y x) y x }
{
    if y < x { y } else { x }
}

// The higher of two floats.
pub fn higher(x: f32, y: f32) -> f32
    ensures { result ≡ cond (lt x y) y x }
{
    if x < y { y } else { x }
}
