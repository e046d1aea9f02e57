// The calls for C, C++ and Rust programs from a record to its verdicts and three-second values;
// include/kifsang.h declares them. exported_answers says what they have in common.
#![tactic(auto)]

mod three_second_call;
mod verdict_call;

pub use three_second_call::kifsang_three_second_value;
pub use verdict_call::kifsang_verdict;
