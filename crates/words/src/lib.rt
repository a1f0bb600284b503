// Words of a sheet (01, "Sheets"): 32 bits, of which the top four are the kind and the others the payload.
#![tactic(auto)]

ghost use Rattle.std.specs.Prelude.{◌≡◌, ◌*◌, ◌<◌};
ghost use Rattle.integers.specs.Kit.{eqb, nat_abs};
ghost use Rattle.words.specs.Word as words;

// 01's table of kinds.
#[derive(Clone, Copy, PartialEq, Eq)]
pub enum Kind {
    SampleHead = 1,
    Sample = 2,
    Coefficient = 3,
    CoefficientHead = 4,
    End = 15,
}

// How many payloads there are: 2^28.
const PAYLOADS: u32 = 268435456;

// How many of their values are negative: those from -2^27 to -1.
const NEGATIVES: u32 = PAYLOADS / 2;

// A negative value and its payload are 2^28 apart.
const MODULUS: i32 = PAYLOADS as i32;

// A size in a head has 14 bits.
const SIZES: u32 = 16384;

// The number of its kind, any of 16.
pub fn kind_number(w: u32) -> u32
    ensures { result ≡ words.kind w }
{
    w / PAYLOADS
}

// Whether a word is of a kind k.
pub fn has_kind(w: u32, k: Kind) -> bool
    ensures { result ≡ eqb (words.kind w) (words.number k) }
{
    kind_number(w) == k as u32
}

// Its payload.
pub fn payload(w: u32) -> u32
    ensures { result ≡ words.payload w }
{
    w % PAYLOADS
}

// Its payload as a value, by way of the rank: how many values are lower. This needs no comparison, and the compiler makes two shifts of it.
pub fn value(w: u32) -> i32
    ensures { result ≡ words.value (words.payload w) }
{
    let p = w % PAYLOADS;
    let rank = (p + NEGATIVES) % PAYLOADS;
    rank as i32 - NEGATIVES as i32
}

// The word of a kind k and a payload p.
pub fn with_payload(k: Kind, p: u32) -> u32
    requires { p < words.payloads }
    ensures { result ≡ words.word (words.number k) p }
{
    k as u32 * PAYLOADS + p
}

// The word of a kind k and a value z.
pub fn with_value(k: Kind, z: i32) -> u32
    requires { nat_abs z < words.value_limit }
    ensures { result ≡ words.word (words.number k) (words.payload_of z) }
{
    if z < 0 {
        return with_payload(k, (z + MODULUS) as u32);
    }
    with_payload(k, z as u32)
}

// How many blocks the sizes in a head make.
pub fn blocks(w: u32) -> u32
    ensures { result ≡ words.across w * words.down w }
{
    let sizes = w % PAYLOADS;
    sizes / SIZES * (sizes % SIZES)
}
