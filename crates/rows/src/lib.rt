// The vocabulary that all crates above share: the orders, the systems, the editions, and a row of values.
#![tactic(auto)]

mod edition;
mod order;
mod setup_checks;
mod system;
mod words;

pub use edition::{EDITION_2, EDITION_A1};
pub use order::{ORDER_COUNT, is_order};
pub use words::first_values;

// The largest value of a row: 2^32 - 1.
pub const LARGEST_VALUE: u64 = 4294967295;

// What a row and a record are made under: the system and the edition. Any numbers may stand in it: the calls refuse those that are unknown with the
// documents' numbers, and a record that holds them is not sound.
#[derive(Clone, Copy, PartialEq, Eq)]
pub struct Setup {
    pub system: u32,
    pub edition: u32,
}

// The values of the 40 orders of one window, orders 1..40 at the places 0..39, with their setup.
#[derive(Drop)]
pub struct Row {
    pub setup: Setup,
    pub values: [u32; ORDER_COUNT],
}
