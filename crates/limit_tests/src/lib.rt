// A value against a limit of IEC 61000-3-2: the limits of an order in units, and the two tests.
#![tactic(auto)]

mod limit;
mod tests;

pub use limit::{limit_in_units, peak_limit_in_units};
pub use tests::{is_over, is_within};
