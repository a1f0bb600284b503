// Text that is written part after part into a buffer: fixed bytes, and whole numbers in decimal (01, "Sheets"; 02, request 5).
#![tactic(auto)]

ghost use Rattle.std.specs.Prelude.{◌≡◌, ◌+◌, ◌≤◌};
ghost use Rattle.integers.specs.Kit.{length};
ghost use Rattle.text.specs.Decimal.{decimal, signed_decimal};
ghost use Rattle.text.specs.Parts.{Wrote};

// A buffer, and where the text that stands in it ends: the next part goes there.
#[derive(Drop)]
pub struct Writer<'a> {
    output: &'a mut [u8],
    at: usize,
}

impl<'a> Writer<'a> {
    // No text yet: it will stand at the start of `output`.
    pub fn new(output: &'a mut [u8]) -> Writer<'a>
        ensures same_reference { result.output.ghost_name ≡ output.entry.ghost_name }
        ensures output_value { result.output.now ≡ output.old }
        ensures at_value { result.at ≡ 0 }
    {
        Writer { output, at: 0 }
    }

    // How long the text is.
    pub fn len(&self) -> usize
        ensures { result ≡ self.now.at }
    {
        self.at
    }

    // One part more.
    pub fn put(&mut self, part: &[u8])
        requires { self.old.at + length part.now ≤ length self.old.output.now }
        ensures { Wrote part.now self.old self.new }
    {
        let end = self.at + part.len();
        self.output[self.at..end].copy_from_slice(part);
        self.at = end;
    }

    // A number in decimal: one of 64 bits has at most 20 digits.
    pub fn put_decimal(&mut self, n: u64)
        requires { self.old.at + 20 ≤ length self.old.output.now }
        ensures wrote { Wrote (decimal n) self.old self.new }
        ensures upper_bound { self.new.at ≤ self.old.at + 20 }
    {
        let mut digits = [0u8; 20];
        let k = io::decimal(n, &mut digits);
        self.put(&digits[..k]);
    }

    // A number in decimal with a minus sign below zero.
    pub fn put_signed(&mut self, n: i64)
        requires { self.old.at + 21 ≤ length self.old.output.now }
        ensures wrote { Wrote (signed_decimal n) self.old self.new }
        ensures upper_bound { self.new.at ≤ self.old.at + 21 }
    {
        if n.is_negative() {
            self.put(b"-");
        }
        self.put_decimal(n.unsigned_abs());
    }
}
