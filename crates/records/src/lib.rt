// The observation record, and which records are sound.
#![tactic(auto)]

mod soundness;

use latest_rows::VALUES_KEPT;
use rows::{ORDER_COUNT, Setup};
pub use soundness::MOST_WINDOWS;

// Document 01's observation record, with the latest rows of document 02's card 8: smoothed values, their sums and
// their peaks over the windows of an observation, for each of the 40 orders, and the rows of the latest 15
// windows. Any numbers may stand in it; which records are sound is said in specs/Soundness.antt. The three arrays
// are document 01's, and the rows stand in one list, as the definitions of the crate latest_rows have them.
#[derive(Drop)]
pub struct Observation {
    pub setup: Setup,
    pub windows: u32,
    pub smoothed: [u64; ORDER_COUNT],
    pub sum: [u64; ORDER_COUNT],
    pub peak: [u64; ORDER_COUNT],
    pub latest: [u32; VALUES_KEPT],
}
