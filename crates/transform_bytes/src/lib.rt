// The program `transform_sheet` as a function from the bytes that it reads to the bytes that it writes (01, "Sheets").
//
// `convert` takes any bytes and looks at the first 32,780 of them, which is what the program reads. It is proved whole, the decimals of the
// refusal included; the program only reads, calls it and writes.
#![tactic(auto)]

ghost use Rattle.std.specs.Prelude.{◌≡◌, ◌*◌, ◌≤◌};
ghost use Rattle.integers.specs.Kit.{length, take};
ghost use Rattle.io.specs.Counts.{IsPrefixLen};
ghost use Rattle.integers.specs.Table.{over};
ghost use Rattle.sheet_bytes.specs.Program.{input_limit};
ghost use Rattle.transform_bytes.specs.Output as spec;
ghost use Rattle.transform_bytes.specs.Output.{output_bytes};

use sheet_bytes::{WORDS_LIMIT, refusal, transform_input};

// The bytes of the largest sheet, which are the most that the program writes.
pub const OUTPUT_LIMIT: usize = 4 * WORDS_LIMIT;

// The bytes of some words, of each the most significant first, at the start of `output`, and how many there are.
fn store(words: &[u32], output: &mut [u8]) -> usize
    requires { 4 * length words.now ≤ length output.old }
    ensures value { result ≡ 4 * length words.now }
    ensures output_after { output.new ≡ over (spec.bytes_of words.now) output.old }
{
    for (k, w) in words.iter().enumerate() {
        output[4 * k..4 * k + 4].copy_from_slice(&w.to_be_bytes());
    }
    4 * words.len()
}

// The bytes that the program writes for `input`, at the start of `output`, and how many there are.
// Kept: a part of `output` as the result would be shorter, but then no clause could say that `output` is as it was beyond it.
pub fn convert(input: &[u8], output: &mut [u8; OUTPUT_LIMIT]) -> usize
    ensures value { result ≡ length (output_bytes (take input_limit input.now)) }
    ensures output_after { output.new ≡ over (output_bytes (take input_limit input.now)) output.old }
    ensures prefix_len { IsPrefixLen result output.new }
    ensures input_kept { input.exit.now ≡ input.entry.now }
{
    let mut made = [0u32; WORDS_LIMIT];
    match transform_input(input, &mut made) {
        Ok(written) => store(&made[..written.words], output),
        Err(r) => refusal(r, output),
    }
}
