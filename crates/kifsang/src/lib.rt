// The static library for C, C++ and Rust programs: an export for each function of include/kifsang.h, which calls the
// library's function of that name under the same contract.
#![tactic(auto)]

mod judgement_calls;
mod limit_calls;
mod line_calls;
mod observe_calls;
mod record_calls;
mod text_calls;
mod window_calls;
