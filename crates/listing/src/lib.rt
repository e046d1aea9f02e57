// The listing of the 40 orders, and the line that is written in place of it for a refusal. The caller lends the buffer.
#![tactic(auto)]

mod listing;
mod order_line;
mod refusal_line;

pub use listing::fill_listing;
pub use refusal_line::fill_refusal_line;

// The bytes that a listing may need.
pub const LISTING_ROOM: usize = 1640;

// The bytes of the line for a refusal.
pub const REFUSAL_LINE_LENGTH: usize = 11;
