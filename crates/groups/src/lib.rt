// From the lines of a window to its harmonic and interharmonic groups.
#![tactic(auto)]

mod group;
mod row;

pub use group::group_value;
pub use row::group_row;
