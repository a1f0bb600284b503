// Runs 01's examples, as changed by 02, through forward, back, rounding and the sheet job, and some more calls of their kind, and prints what each
// returns and leaves; the file stdout has what the papers say, or what follows from their rules. A line has the number and the place that the call
// returns, of a sheet both sums, and then some numbers of its buffers, which held 7 before; words are in hexadecimal.
#![tactic(auto)]

ghost use Rattle.std.specs.Prelude.{◌<◌};

use answers::Refusal;
use back::back;
use forward::forward;
use round::round;
use sheet::{Written, sheet};
use std::fmt;
use std::fmt::Write;

// What a job answers, printed as the number and the place that it returns.
#[derive(Clone, Copy)]
struct Returned(Result<(), Refusal>);

impl fmt::Display for Returned {
    fn fmt<W: fmt::Write>(&self, f: &mut fmt::Formatter<W>) -> fmt::Result {
        match self.0 {
            Ok(()) => write!(f, "0 0"),
            Err(refusal) => write!(f, "{} {}", refusal.number(), refusal.place()),
        }
    }
}

// What the sheet job answers, printed as its number, its place and both sums.
#[derive(Clone, Copy)]
struct ReturnedSheet(Result<Written, Refusal>);

impl fmt::Display for ReturnedSheet {
    fn fmt<W: fmt::Write>(&self, f: &mut fmt::Formatter<W>) -> fmt::Result {
        match self.0 {
            Ok(w) => write!(f, "0 {} {} {}", w.words, w.totals.samples, w.totals.firsts),
            Err(refusal) => write!(f, "{} 0 0", Returned(Err(refusal))),
        }
    }
}

// Forward of samples that are all `other`, but for x at index i: the first number, the last, and those of (0,1), (1,1) and (1,7) that
// 01 names.
fn try_forward(out: &mut impl fmt::Write, other: i32, x: i32, i: usize) -> fmt::Result
    requires { i < 64 }
{
    let mut samples = [other; 64];
    samples[i] = x;
    let mut e = [7i32; 512];
    let answer = Returned(forward(&samples, &mut e));
    writeln!(
        out,
        "{answer} {} {} {} {} {} {} {}",
        e[0], e[511], e[11], e[13], e[72], e[74], e[126]
    )
}

// 63 samples, all out of range: cause 1 comes before 2. Then a buffer of 511 numbers.
fn short_forward(out: &mut impl fmt::Write) -> fmt::Result {
    let mut elements = [7i32; 512];
    let answer = Returned(forward(&[32768i32; 63], &mut elements));
    writeln!(out, "{answer} {}", elements[0])?;
    let mut short = [7i32; 511];
    let answer = Returned(forward(&[0i32; 64], &mut short));
    writeln!(out, "{answer} {}", short[0])
}

// Back of elements that are all 0, but for x at component k of the set: the first sample, and the last.
fn try_back(out: &mut impl fmt::Write, x: i32, k: usize) -> fmt::Result
    requires { k < 512 }
{
    let mut elements = [0i32; 512];
    elements[k] = x;
    let mut samples = [7i32; 64];
    let answer = Returned(back(&elements, &mut samples));
    writeln!(out, "{answer} {} {}", samples[0], samples[63])
}

// 511 numbers, all too large: cause 1 comes before 4. Then a buffer of 63 samples. Then 512 numbers, all too large: cause 4 comes before 5.
fn short_back(out: &mut impl fmt::Write) -> fmt::Result {
    let mut samples = [7i32; 64];
    let answer = Returned(back(&[4194305i32; 511], &mut samples));
    writeln!(out, "{answer} {}", samples[0])?;
    let mut short = [7i32; 63];
    let answer = Returned(back(&[0i32; 512], &mut short));
    writeln!(out, "{answer} {}", short[0])?;
    let answer = Returned(back(&[4194305i32; 512], &mut samples));
    writeln!(out, "{answer} {}", samples[0])
}

// Rounding at b of elements that are all 0, but for x at component k of the set: the first coefficient, that at (1,1), and the last.
fn try_round(out: &mut impl fmt::Write, x: i32, k: usize, b: u32) -> fmt::Result
    requires { k < 512 }
{
    let mut elements = [0i32; 512];
    elements[k] = x;
    let mut c = [7i32; 64];
    let answer = Returned(round(&elements, b, &mut c));
    writeln!(out, "{answer} {} {} {}", c[0], c[9], c[63])
}

// 511 numbers, all too large, at b = 12: cause 1 comes before 3 and 4. Then a buffer of 63 coefficients.
fn short_round(out: &mut impl fmt::Write) -> fmt::Result {
    let mut coefficients = [7i32; 64];
    let answer = Returned(round(&[4194305i32; 511], 12, &mut coefficients));
    writeln!(out, "{answer} {}", coefficients[0])?;
    let mut short = [7i32; 63];
    let answer = Returned(round(&[0i32; 512], 11, &mut short));
    writeln!(out, "{answer} {}", short[0])
}

// Forward of samples that are all `other`, but for x at (0,0), and then rounding at b: the coefficients at (0,0), (0,1), (1,1) and (7,7).
fn try_both(out: &mut impl fmt::Write, other: i32, x: i32, b: u32) -> fmt::Result {
    let mut samples = [other; 64];
    samples[0] = x;
    let mut elements = [7i32; 512];
    let there = Returned(forward(&samples, &mut elements));
    let mut c = [7i32; 64];
    let rounded = Returned(round(&elements, b, &mut c));
    writeln!(
        out,
        "{there} {rounded} {} {} {} {}",
        c[0], c[1], c[9], c[63]
    )
}

// Forward of samples that are all `other`, but for x at (7,7), then x2 in place of component k of the set, and then back: the first sample and the
// last.
fn try_return(out: &mut impl fmt::Write, other: i32, x: i32, k: usize, x2: i32) -> fmt::Result
    requires { k < 512 }
{
    let mut block = [other; 64];
    block[63] = x;
    let mut elements = [7i32; 512];
    let there = Returned(forward(&block, &mut elements));
    elements[k] = x2;
    let mut samples = [7i32; 64];
    let again = Returned(back(&elements, &mut samples));
    writeln!(out, "{there} {again} {} {}", samples[0], samples[63])
}

// The sheet job at b, on 01's sheet of ones but for the word x at index i: words 0, 1, 2 and 65 of an output of 67, the word beyond, and the first
// and the last number of the scratch.
fn try_sheet(out: &mut impl fmt::Write, x: u32, i: usize, b: u32) -> fmt::Result
    requires { i < 66 }
{
    let mut words = [0x20000001u32; 66];
    words[0] = 0x10004001;
    words[65] = 0xF0000001;
    words[i] = x;
    let mut w = [7u32; 67];
    let mut scratch = [7i32; 512];
    let answer = ReturnedSheet(sheet(&words, b, &mut scratch, &mut w));
    writeln!(
        out,
        "{answer} {:08x} {:08x} {:08x} {:08x} {:08x} {} {}",
        w[0], w[1], w[2], w[65], w[66], scratch[0], scratch[511]
    )
}

// 66 words, each a head: a scratch of 511 or an output of 65 is cause 1, before the second word's 7. 65 such words: 7 at 65, before 1.
fn short_sheet(out: &mut impl fmt::Write) -> fmt::Result {
    let head = [0x10004001u32; 66];
    let mut output = [7u32; 66];
    let mut scratch = [7i32; 512];
    let mut short_scratch = [7i32; 511];
    let mut short_output = [7u32; 65];
    let answer = ReturnedSheet(sheet(&head, 26, &mut short_scratch, &mut output));
    writeln!(out, "{answer} {:08x} {}", output[0], short_scratch[0])?;
    let answer = ReturnedSheet(sheet(&head, 26, &mut scratch, &mut short_output));
    writeln!(out, "{answer} {:08x} {}", short_output[0], scratch[0])?;
    let answer = ReturnedSheet(sheet(&head[..65], 26, &mut short_scratch, &mut short_output));
    writeln!(out, "{answer} {:08x} {}", short_output[0], short_scratch[0])
}

// No words are cause 6; at b = 12 they are cause 3, which is asked first.
fn empty_sheet(out: &mut impl fmt::Write, b: u32) -> fmt::Result {
    let mut output = [7u32; 66];
    let mut scratch = [7i32; 512];
    let answer = ReturnedSheet(sheet(&[], b, &mut scratch, &mut output));
    writeln!(out, "{answer} {:08x} {}", output[0], scratch[0])
}

// No table of calls, here and for round and the sheet: the place stands in each call, so that the check finds alone that it is in range.
fn forward_examples(out: &mut impl fmt::Write) -> fmt::Result {
    writeln!(out, "forward")?;
    try_forward(out, 1, 1, 0)?;
    try_forward(out, 0, 1, 0)?;
    try_forward(out, -2048, -2048, 0)?;
    try_forward(out, 2047, 2047, 0)?;
    try_forward(out, 0, 2048, 0)?;
    try_forward(out, 0, -2049, 63)?;
    try_forward(out, -32768, -32768, 0)?;
    try_forward(out, 32767, 32767, 0)?;
    try_forward(out, 0, 32768, 0)?;
    try_forward(out, 0, -32769, 63)?;
    try_forward(out, 32768, 0, 0)?;
    short_forward(out)
}

fn back_examples(out: &mut impl fmt::Write) -> fmt::Result {
    writeln!(out, "back")?;
    for x in [
        262144, 262145, 1, 128, -262144, 262016, 4194304, 4194305, -4194304, 4194176,
    ] {
        try_back(out, x, 0)?;
    }
    try_back(out, -2147483648, 511)?;
    try_back(out, 2147483647, 79)?;
    try_back(out, 0, 0)?;
    short_back(out)
}

// The set's last number is 0 by the class of (7,7), so that 0 there leaves a block's set as it is.
fn return_examples(out: &mut impl fmt::Write) -> fmt::Result {
    writeln!(out, "forward, then back")?;
    for (other, x) in [
        (-2048, 2047),
        (2047, -2048),
        (-32768, 32767),
        (32767, -32768),
    ] {
        try_return(out, other, x, 511, 0)?;
    }
    try_return(out, 1, 1, 0, 128)?;
    try_return(out, 1, 1, 0, 129)?;
    try_return(out, 1, 1, 511, 1)?;
    try_return(out, 1, 1, 0, 262144)?;
    try_return(out, 1, 1, 0, 4194304)
}

fn round_examples(out: &mut impl fmt::Write) -> fmt::Result {
    writeln!(out, "round")?;
    try_round(out, 262144, 0, 11)?;
    try_round(out, 262144, 0, 20)?;
    try_round(out, 262144, 0, 26)?;
    try_round(out, 262145, 0, 26)?;
    try_round(out, 4194304, 0, 11)?;
    try_round(out, 4194304, 0, 20)?;
    try_round(out, 4194304, 0, 26)?;
    try_round(out, 4194305, 0, 26)?;
    try_round(out, -2147483648, 511, 26)?;
    try_round(out, 256, 74, 11)?;
    try_round(out, -256, 74, 11)?;
    try_round(out, -262144, 505, 26)?;
    try_round(out, -4194304, 505, 26)?;
    try_round(out, 4194305, 0, 12)?;
    short_round(out)
}

fn both_examples(out: &mut impl fmt::Write) -> fmt::Result {
    writeln!(out, "forward, then round")?;
    for (other, x, b) in [
        (1, 1, 11),
        (0, 1, 11),
        (-2048, -2048, 20),
        (2047, 2047, 26),
        (-32768, -32768, 11),
        (32767, 32767, 26),
    ] {
        try_both(out, other, x, b)?;
    }
    Ok(())
}

fn sheet_examples(out: &mut impl fmt::Write) -> fmt::Result {
    writeln!(out, "sheet")?;
    try_sheet(out, 0x20000001, 1, 11)?;
    try_sheet(out, 0x20000001, 1, 20)?;
    try_sheet(out, 0x20000001, 1, 26)?;
    try_sheet(out, 0x200007FF, 1, 26)?;
    try_sheet(out, 0x20000800, 1, 26)?;
    try_sheet(out, 0x2FFFF800, 64, 11)?;
    try_sheet(out, 0x2FFFF7FF, 64, 11)?;
    try_sheet(out, 0x20007FFF, 1, 26)?;
    try_sheet(out, 0x20008000, 1, 26)?;
    try_sheet(out, 0x2FFF8000, 64, 11)?;
    try_sheet(out, 0x2FFF7FFF, 64, 11)?;
    try_sheet(out, 0x30008000, 32, 20)?;
    try_sheet(out, 0xE0000002, 65, 20)?;
    try_sheet(out, 0xF0000002, 65, 20)?;
    try_sheet(out, 0x40004001, 0, 26)?;
    try_sheet(out, 0x10000001, 0, 26)?;
    try_sheet(out, 0x10004002, 0, 26)?;
    try_sheet(out, 0x10204001, 0, 26)?;
    try_sheet(out, 0x20008000, 1, 12)?;
    short_sheet(out)?;
    empty_sheet(out, 26)?;
    empty_sheet(out, 12)
}

fn examples(out: &mut impl fmt::Write) -> fmt::Result {
    forward_examples(out)?;
    back_examples(out)?;
    return_examples(out)?;
    round_examples(out)?;
    both_examples(out)?;
    sheet_examples(out)
}

// Standard output. What can't be written is not told, as of the other programs.
#[derive(Drop)]
struct Output;

impl fmt::Write for Output {
    fn write_str(&mut self, text: &str) -> fmt::Result {
        io::write_all(1, text.as_bytes());
        Ok(())
    }
}

fn main() {
    let _ = examples(&mut Output);
}
