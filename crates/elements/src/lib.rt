// Elements in code: u_0 + u_1·c_1 + ... + u_7·c_7 as a record of its eight components, which every ring operation takes and
// returns by value.
//
// A component is an i32. The operations ask that no component of what they take is above `headroom` in magnitude, so that no sum of two can
// wrap; `add_four` asks room for its three sums. A sum or a difference at most adds the bounds of its operands (`within_add`,
// `within_subtract`), and a product with c_k doubles its operand's (`within_cosine`): a caller that knows a bound at the start knows one at each
// step. A product of a whole number with c_m, and a component along c_m, need no addition: c_m is plus or minus one of c_1 to c_7, or a whole
// number, which no angle of a step is.
#![tactic(auto)]

ghost use Rattle.std.specs.Prelude.{◌≡◌, ◌%◌, ◌*◌, ◌+◌, ◌<◌, ◌≤◌, ◌*ℤ◌};
ghost use Rattle.integers.specs.Kit.{pos, nat_abs, length};
ghost use Rattle.std.specs.Int.{w32};
ghost use Rattle.std.proofs.Common.{SFits};
ghost use Rattle.ring.specs.Element as ring;
ghost use Rattle.ring.specs.Maps as maps;
ghost use Rattle.elements.specs.Angle as angles;
ghost use Rattle.elements.specs.Bound.{Within, bit_limit, headroom};
ghost use Rattle.elements.specs.Buffer as buffers;
ghost use Rattle.elements.specs.Continued as spec;

use integers::{minus, plus};

// Kept: below, a clause says how far components may go. In a type the bound would be a constant, and that of a sum one more, which Rattle can't compute: no plainer.

// The eight components, u_0 first.
#[derive(Clone, Copy)]
pub struct Element {
    pub components: [i32; 8],
}

// The element with s at component k and 0 at the others: s·c_k, or the whole number s where k is 0.
pub fn only(s: i32, k: usize) -> Element
    requires { k < 8 }
    ensures { result.components ≡ ring.only s k }
{
    let mut components = [0i32; 8];
    components[k] = s;
    Element { components }
}

// u_k
pub fn component(a: Element, k: usize) -> i32
    requires { k < 8 }
    ensures { result ≡ ring.component a.components k }
{
    a.components[k]
}

// a + b
pub fn add(a: Element, b: Element) -> Element
    requires within { Within headroom a.components }
    requires within_2 { Within headroom b.components }
    ensures { result.components ≡ ring.add a.components b.components }
{
    let x = a.components;
    let y = b.components;
    let mut r = [0i32; 8];
    for i in 0..8 {
        r[i] = plus(x[i], y[i]);
    }
    Element { components: r }
}

// a + b + c + d, from left to right.
pub fn add_four(a: Element, b: Element, c: Element, d: Element) -> Element
    requires within { Within (bit_limit 28) a.components }
    requires within_2 { Within (bit_limit 28) b.components }
    requires within_3 { Within (bit_limit 29) c.components }
    requires within_4 { Within headroom d.components }
    ensures { result.components ≡ ring.add (ring.add (ring.add a.components b.components) c.components) d.components }
{
    add(add(add(a, b), c), d)
}

// -a
pub fn negate(a: Element) -> Element
    requires { Within headroom a.components }
    ensures { result.components ≡ ring.negate a.components }
{
    let u = a.components;
    let mut r = [0i32; 8];
    for i in 0..8 {
        r[i] = minus(0, u[i]);
    }
    Element { components: r }
}

// a - b
pub fn subtract(a: Element, b: Element) -> Element
    requires within { Within headroom a.components }
    requires within_2 { Within headroom b.components }
    ensures { result.components ≡ ring.subtract a.components b.components }
{
    add(a, negate(b))
}

// u_(j-7), for the components u_(-7) to u_14: they go on past u_0 and u_7 as the cosines do (specs/Continued.antt).
fn continued(a: Element, j: usize) -> i32
    requires within { Within headroom a.components }
    requires j_bound { j < 22 }
    ensures { result ≡ spec.continued a.components j }
{
    let u = a.components;
    if j < 7 {
        return u[7 - j];
    }
    if j < 15 {
        return u[j - 7];
    }
    if j == 15 {
        return 0;
    }
    minus(0, u[23 - j])
}

// c_k × a, for k from 0 to 7: component i is u_(i-k) + u_(i+k).
pub fn times(a: Element, k: usize) -> Element
    requires within { Within headroom a.components }
    requires k_bound { k < 8 }
    ensures { result.components ≡ ring.mul (ring.cosine (pos k)) a.components }
{
    let mut r = [0i32; 8];
    for i in 0..8 {
        r[i] = plus(continued(a, 7 + i - k), continued(a, 7 + i + k));
    }
    Element { components: r }
}

// The conjugate of a, which has c_5k in place of c_k.
pub fn conjugate(a: Element) -> Element
    requires { Within headroom a.components }
    ensures { result.components ≡ maps.conjugate a.components }
{
    let u = a.components;
    let u1 = minus(0, u[3]);
    let u4 = minus(0, u[4]);
    let u6 = minus(0, u[2]);
    Element {
        components: [u[0], u1, u[6], u[7], u4, u[1], u6, u[5]],
    }
}

// Kept: that m is no multiple of 8 is a clause of what takes an angle: angles are numbers of constant tables, and a type round each would be made where it is used.

// The k from 1 to 7 for which c_m is c_k or -c_k.
fn index(m: usize) -> usize
    requires { 0 < m % 8 }
    ensures value { result ≡ angles.index m }
    ensures upper_bound { result < 8 }
{
    let r = m % 16;
    if r < 8 {
        return r;
    }
    16 - r
}

// s where c_m is c_k, and -s where it is -c_k.
fn signed(s: i32, m: usize) -> i32
    requires { nat_abs s ≤ headroom }
    ensures { result ≡ angles.signed s m }
{
    let r = m % 32;
    if r < 8 {
        return s;
    }
    if r < 24 {
        return minus(0, s);
    }
    s
}

// The whole number u_0 of a, its other components ignored, times c_m, for m no multiple of 8: this needs no addition.
pub fn times_integer(a: Element, m: usize) -> Element
    requires within { Within headroom a.components }
    requires nonzero { 0 < m % 8 }
    ensures { result.components ≡ ring.mul (maps.part a.components 0) (ring.cosine (pos m)) }
{
    let u = component(a, 0);
    only(signed(u, m), index(m))
}

// The component of a along c_m, as a whole number, for m no multiple of 8: u_k where c_m is c_k, and -u_k where it is -c_k.
pub fn along(a: Element, m: usize) -> Element
    requires within { Within headroom a.components }
    requires nonzero { 0 < m % 8 }
    ensures { result.components ≡ ring.integer (maps.dot a.components (ring.cosine (pos m))) }
{
    let u = component(a, index(m));
    only(signed(u, m), 0)
}

// The whole number s·u_0; the other components of a are ignored.
pub fn multiple(a: Element, s: i32) -> Element
    requires within { Within headroom a.components }
    requires sfits { SFits w32 (s *ℤ ring.component a.components 0) }
    ensures { result.components ≡ ring.integer (s *ℤ ring.component a.components 0) }
{
    only(s * component(a, 0), 0)
}

// Element p of a buffer.
pub fn element_at(buffer: &[i32], p: usize) -> Element
    requires { 8 * p + 8 ≤ length buffer.now }
    ensures { result.components ≡ buffers.element_at buffer.now p }
{
    // Kept: `copy_from_slice` here and in `put` proves, but forward then takes 3,612 instructions a block for 2,162, and back some 20,000 for 4,400.
    let mut r = [0i32; 8];
    for k in 0..8 {
        r[k] = buffer[8 * p + k];
    }
    Element { components: r }
}

// Stores a as element p of a buffer.
pub fn put(buffer: &mut [i32], p: usize, a: Element)
    requires { 8 * p + 8 ≤ length buffer.old }
    ensures { buffer.new ≡ buffers.put buffer.old p a.components }
{
    let u = a.components;
    for k in 0..8 {
        buffer[8 * p + k] = u[k];
    }
}
