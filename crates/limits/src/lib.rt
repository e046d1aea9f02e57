// The limits of IEC 61000-3-2 for the harmonic orders, in milliamperes, as exact fractions. The one place of
// the code that knows such a figure.
#![tactic(auto)]

mod call;
mod limit;
mod limit_table;

pub use call::order_limit;
pub use limit::{class_limit, has_limit};
