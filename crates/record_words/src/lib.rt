// An observation record as the words that a caller keeps, the parts of the record one after the other in
// the order of include/kifsang.h. The places of the parts stand here once for the code, and in
// specs/Words.antt once for the contracts.
#![tactic(auto)]

mod reading;
mod writing;

use latest_rows::VALUES_KEPT;
pub use reading::{fill_record, read_record};
use rows::{LARGEST_VALUE, ORDER_COUNT};
pub use writing::hand_over_record;

// Each part begins where the part before it ends.
const SYSTEM_PLACE: usize = 0;

const EDITION_PLACE: usize = SYSTEM_PLACE + 1;

const WINDOWS_PLACE: usize = EDITION_PLACE + 1;

const SMOOTHED_PLACE: usize = WINDOWS_PLACE + 1;

const SUM_PLACE: usize = SMOOTHED_PLACE + ORDER_COUNT;

const PEAK_PLACE: usize = SUM_PLACE + ORDER_COUNT;

const LATEST_PLACE: usize = PEAK_PLACE + ORDER_COUNT;

// The latest rows stand two values in a word.
const LATEST_WORDS: usize = VALUES_KEPT / 2;
// The words of a record.
pub const RECORD_WORDS: usize = LATEST_PLACE + LATEST_WORDS;

// One more than the largest number of 32 bits: what the upper half of a word counts.
const HALF_BASE: u64 = LARGEST_VALUE + 1;
