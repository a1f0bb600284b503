// The program `sum_sheet` as a function from the bytes that it reads to the bytes that it writes (02, request 5).
//
// `convert` takes any bytes and looks at the first 32,780 of them, which is what the program reads. It is proved whole, the decimals included; the
// program only reads, calls it and writes.
#![tactic(auto)]

ghost use Rattle.std.specs.Prelude.{◌≡◌, ◌≤◌};
ghost use Rattle.integers.specs.Kit.{length, take};
ghost use Rattle.io.specs.Counts.{IsPrefixLen};
ghost use Rattle.integers.specs.Table.{over};
ghost use Rattle.sheet_bytes.specs.Program.{input_limit, line_limit};
ghost use Rattle.sum_bytes.specs.Output.{sum_bytes, sum_line};

use sheet_blocks::Totals;
use sheet_bytes::{LINE_LIMIT, WORDS_LIMIT, refusal, transform_input};
use text::Writer;

// The line of both sums, at the start of `output`, and its length, which is below that of the longest line.
// Kept: part after part, for the reason that stands in `sheet_bytes` of the line of a refusal.
fn line(totals: Totals, output: &mut [u8]) -> usize
    requires { line_limit ≤ length output.old }
    ensures value { result ≡ length (sum_line totals.samples totals.firsts) }
    ensures output_after { output.new ≡ over (sum_line totals.samples totals.firsts) output.old }
{
    let mut line = Writer::new(output);
    line.put(b"SUM ");
    line.put_signed(totals.samples);
    line.put(b" ");
    line.put_signed(totals.firsts);
    line.put(b"\n");
    line.len()
}

// The bytes that the program writes for `input`, at the start of `output`, and how many there are.
// Kept: a part of `output` as the result would be shorter, but then no clause could say that `output` is as it was beyond it.
pub fn convert(input: &[u8], output: &mut [u8; LINE_LIMIT]) -> usize
    ensures value { result ≡ length (sum_bytes (take input_limit input.now)) }
    ensures output_after { output.new ≡ over (sum_bytes (take input_limit input.now)) output.old }
    ensures prefix_len { IsPrefixLen result output.new }
    ensures input_kept { input.exit.now ≡ input.entry.now }
{
    let mut made = [0u32; WORDS_LIMIT];
    match transform_input(input, &mut made) {
        Ok(written) => line(written.totals, output),
        Err(r) => refusal(r, output),
    }
}
