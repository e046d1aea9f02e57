// The calls for C, C++ and Rust programs from a recording's window to its lines and to the panel's row;
// include/kifsang.h declares them. exported_answers says what they have in common.
#![tactic(auto)]

mod line_calls;
mod panel_call;

pub use line_calls::{kifsang_lines_from, kifsang_spectrum};
pub use panel_call::kifsang_panel_row;
