// What the programs over sheets share (01, "Sheets"; 02, request 5): the bytes that they read, as words; what the sheet job answers for these; and
// the line of a refusal.
#![tactic(auto)]

ghost use Rattle.std.specs.Prelude.{◌≡◌, ◌+◌, ◌/◌, ◌≤◌};
ghost use Rattle.integers.specs.Kit.{length, take};
ghost use Rattle.integers.specs.Table.{over};
ghost use Rattle.answers.specs.Answer.{refused, returned_with};
ghost use Rattle.sheet_blocks.specs.Blocks.{coefficient_sheet};
ghost use Rattle.sheet_blocks.specs.Sums.{no_totals, sheet_totals};
ghost use Rattle.sheet.specs.Sheet.{totals_given};
ghost use Rattle.sheet_bytes.specs.Program as program;
ghost use Rattle.sheet_bytes.specs.Program.{by_input, input_limit, input_returned, line_limit, program_width};

use answers::Refusal;
use limits::{BLOCKS_LIMIT, COMPONENTS, PLACES};
use sheet::{Written, sheet};
use text::Writer;

// The width that the programs work at.
const WIDTH: u32 = 26;

// The words of the largest sheet.
pub const WORDS_LIMIT: usize = 2 + PLACES * BLOCKS_LIMIT;

// The bytes that a program reads at most: one word more than the largest sheet has.
pub const INPUT_LIMIT: usize = 4 * WORDS_LIMIT + 4;

// Room for the longest line, which is that of a refusal with two numbers of 20 digits.
pub const LINE_LIMIT: usize = 53;

// The word of the four bytes from index i on, of which the first is the most significant.
fn word_from(bytes: &[u8], i: usize) -> u32
    requires { i + 4 ≤ length bytes.now }
    ensures { result ≡ program.word_from bytes.now i }
{
    u32::from_be_bytes([bytes[i], bytes[i + 1], bytes[i + 2], bytes[i + 3]])
}

// The whole words of some bytes, at the start of `words`.
fn load(bytes: &[u8], words: &mut [u32])
    requires { length bytes.now / 4 ≤ length words.old }
    ensures { words.new ≡ over (program.words_of bytes.now) words.old }
{
    for i in 0..bytes.len() / 4 {
        words[i] = word_from(bytes, 4 * i);
    }
}

// The line of a number and a place, at the start of `output`, and its length.
// Kept: part after part, since no heap is used, and the library says of a `String` alone what `write!` leaves in it.
pub fn line(number: u64, place: u64, output: &mut [u8]) -> usize
    requires { line_limit ≤ length output.old }
    ensures value { result ≡ length (program.refusal_line (record { number = number; place = place })) }
    ensures output_after { output.new ≡ over (program.refusal_line (record { number = number; place = place })) output.old }
{
    let mut line = Writer::new(output);
    line.put(b"refused ");
    line.put_decimal(number);
    line.put(b" at ");
    line.put_decimal(place);
    line.put(b"\n");
    line.len()
}

// The line of a refusal, at the start of `output`, and its length.
pub fn refusal(r: Refusal, output: &mut [u8]) -> usize
    requires { line_limit ≤ length output.old }
    ensures value { result ≡ length (program.refusal_line (refused r)) }
    ensures output_after { output.new ≡ over (program.refusal_line (refused r)) output.old }
{
    line(r.number() as u64, r.place() as u64, output)
}

// What is answered for the bytes that a program reads, which are the first 32,780 of `input`: bytes over are refused, and whole words go to the sheet
// job. The coefficient sheet goes to `output`, which a refusal leaves as it was.
pub fn transform_input(input: &[u8], output: &mut [u32; WORDS_LIMIT]) -> Result<Written, Refusal>
    ensures answer_value { returned_with (λ w. w.words) result ≡ input_returned (take input_limit input.now) }
    ensures totals_value { totals_given result ≡ by_input (sheet_totals program_width) no_totals (take input_limit input.now) }
    ensures output_after { output.new ≡ by_input (λ words. over (coefficient_sheet program_width words) output.old) output.old (take input_limit input.now) }
    ensures input_kept { input.exit.now ≡ input.entry.now }
{
    let size = input.len().min(INPUT_LIMIT);
    let count = size / 4;
    if size % 4 != 0 {
        return Err(Refusal::Words(count));
    }
    let mut words = [0u32; INPUT_LIMIT / 4];
    load(&input[..size], &mut words);
    let mut scratch = [0i32; COMPONENTS];
    sheet(&words[..count], WIDTH, &mut scratch, output)
}
