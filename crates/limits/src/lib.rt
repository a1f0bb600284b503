// The limits of 01 and 02 as constants of the code; specs/ has the same as definitions. No other crate writes one of these numbers.
#![tactic(auto)]

use integers::Interval;

// The places of a block of 8 by 8: its samples, its elements and its coefficients.
pub const PLACES: usize = 64;

// The components of all its elements.
pub const COMPONENTS: usize = 8 * PLACES;

// The largest magnitude of a sample.
const SAMPLE_LIMIT: i32 = 32768;

// The range of samples.
pub const SAMPLES: Interval = Interval {
    lowest: -SAMPLE_LIMIT,
    highest: SAMPLE_LIMIT - 1,
};

// The largest sum of the magnitudes of an element's components: 8 · 16 times the sample limit.
pub const MAGNITUDES_LIMIT: u64 = 128 * SAMPLE_LIMIT as u64;

// How often an element is halved for a coefficient in eighths.
pub const HALVINGS: u32 = 1;

// The largest number of blocks of a sheet.
pub const BLOCKS_LIMIT: usize = 128;

// The largest quantization step.
pub const STEP_LIMIT: u32 = 1024;

// The largest magnitude of a coefficient that comes in from outside.
pub const COEFFICIENT_LIMIT: i32 = 4194303;

pub const COEFFICIENTS: Interval = Interval {
    lowest: -COEFFICIENT_LIMIT,
    highest: COEFFICIENT_LIMIT,
};

// The largest magnitude of one that is dequantized.
pub const DEQUANTIZED_LIMIT: i64 = COEFFICIENT_LIMIT as i64 + 4 * STEP_LIMIT as i64;
