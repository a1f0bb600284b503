// Reads a sheet of samples from standard input, and writes the sheet of its coefficients, or why it is refused, to standard output.
#![tactic(auto)]

use sheet_bytes::INPUT_LIMIT;
use transform_bytes::{OUTPUT_LIMIT, convert};

fn main() {
    let mut input = [0u8; INPUT_LIMIT];
    // Kept: no plainer, as std fills a buffer whole or by a loop of one's own; here a failed read ends the input, and a failed write is not told.
    let n = io::read_full(0, &mut input);
    let mut output = [0u8; OUTPUT_LIMIT];
    let m = convert(&input[..n], &mut output);
    io::write_all(1, &output[..m]);
}
