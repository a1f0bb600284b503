// Reads a sheet of samples from standard input, and writes one line to standard output: its sums, or why it is refused.
#![tactic(auto)]

use sheet_bytes::{INPUT_LIMIT, LINE_LIMIT};
use sum_bytes::convert;

fn main() {
    let mut input = [0u8; INPUT_LIMIT];
    // Kept: no plainer, as std fills a buffer whole or by a loop of one's own; here a failed read ends the input, and a failed write is not told.
    let n = io::read_full(0, &mut input);
    let mut output = [0u8; LINE_LIMIT];
    let m = convert(&input[..n], &mut output);
    io::write_all(1, &output[..m]);
}
