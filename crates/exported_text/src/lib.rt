// The calls for C, C++ and Rust programs for number columns and the listing; include/kifsang.h
// declares them. exported_answers says what they have in common.
#![tactic(auto)]

mod column_calls;
mod listing_call;

pub use column_calls::{kifsang_read_column, kifsang_write_column};
pub use listing_call::kifsang_fill_listing;
