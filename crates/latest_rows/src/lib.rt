// The latest rows of a record: where the values of a row stand, and a new row in place of the oldest.
#![tactic(auto)]

ghost use Rattle.std.specs.Prelude.{◌≡◌};
ghost use Rattle.latest_rows.specs.Latest.{row_place, with_latest};

use rows::ORDER_COUNT;

// The windows of a three-second value: the rows that a record keeps.
pub const ROWS_KEPT: usize = 15;
// The values of these rows.
pub const VALUES_KEPT: usize = ROWS_KEPT * ORDER_COUNT;

// The place of the first value of a row, by the count of windows before it.
pub fn row_place(windows: u32) -> usize
    ensures { result ≡ row_place windows }
{
    windows as usize % ROWS_KEPT * ORDER_COUNT
}

// Keeps the row that comes after so many windows, and the oldest no more.
#[tactic(auto, using(std::proofs::lemmas::Grind::common_steps, crate::proofs::Latest::whole_rows), unfolding(crate::specs::Latest::with_latest))]
pub fn keep_row(latest: &mut [u32; VALUES_KEPT], windows: u32, values: &[u32; ORDER_COUNT])
    ensures { latest.new ≡ with_latest windows values.now latest.old }
{
    let place = row_place(windows);
    latest[place..place + ORDER_COUNT].copy_from_slice(values);
}
