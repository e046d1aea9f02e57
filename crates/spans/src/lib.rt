// The sum of 2×w×L over a span of any lines, and the checks of lines that a caller lends.
// Every function takes whatever it is handed.
#![tactic(auto)]

mod checks;
mod sums;

pub use checks::check_lines;
pub use sums::span_sum;
