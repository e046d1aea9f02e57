// The three-second value of an order: one figure for the latest 15 windows of a record.
#![tactic(auto)]

ghost use Rattle.std.specs.Prelude.{◌≡◌, ◌/◌, ◌<◌, ◌≤◌};
ghost use Rattle.refusals.specs.Answers.{refusal_of, answer_of};
ghost use Rattle.rows.specs.Orders.{order_count};
ghost use Rattle.wide_numbers.specs.Squares.{sum_of_squares};
ghost use Rattle.latest_rows.specs.Latest.{rows_kept, latest_values};
ghost use Rattle.records.specs.Soundness.{most_windows};
ghost use Rattle.three_seconds.specs.ThreeSecond.{three_second_of, three_second_refusal, three_second_answer};

use latest_rows::{ROWS_KEPT, row_place};
use records::Observation;
use refusals::{Refusal, refuse_if};
use rows::is_order;
use square_root::root;

// The values of an order that count.
const COUNT: u64 = ROWS_KEPT as u64;

// What is kept of the order at a place of a row, the oldest first.
#[tactic(auto, using(crate::proofs::ThreeSecond::filling), unfolding(algebra::specs::Lists::tabulate, latest_rows::specs::Latest::latest_values))]
fn kept_values(observation: &Observation, place: usize) -> [u32; ROWS_KEPT]
    requires windows_le_most_windows { observation.now.windows ≤ most_windows }
    requires place_lt_order_count { place < order_count }
    ensures { result ≡ latest_values observation.now.windows observation.now.latest place }
{
    let mut values = [0; ROWS_KEPT];
    for j in 0..ROWS_KEPT {
        let row = row_place(observation.windows + j as u32);
        values[j] = observation.latest[row + place];
    }
    values
}

// The whole part of the mean of 15 squares. Their sum may pass 64 bits and the mean does not, so each square is
// divided, and what is left over of it is added up apart.
#[tactic(auto, using(crate::proofs::ThreeSecond::squares))]
fn mean_square(values: &[u32; ROWS_KEPT]) -> u64
    ensures { result ≡ sum_of_squares values.now / rows_kept }
{
    let mut quotients = 0;
    let mut remainders = 0;
    for value in values {
        let value = u64::from(*value);
        let square = value * value;
        quotients += square / COUNT;
        remainders += square % COUNT;
    }
    quotients + remainders / COUNT
}

// The figure of 15 values. As 15 × t² at most x is t² at most the whole part of x / 15, the largest t is the whole
// part of the root of that.
#[tactic(auto, using(crate::proofs::ThreeSecond::figures))]
fn three_second_of(values: &[u32; ROWS_KEPT]) -> u64
    ensures { result ≡ three_second_of values.now }
{
    u64::from(root(mean_square(values)))
}

// The checks of a call, in order: 7 record not sound, 6 order outside 1..40, 20 fewer than 15 windows.
#[tactic(auto, unfolding(crate::specs::ThreeSecond::three_second_refusal))]
fn check_call(observation: &Observation, order: u32) -> Result<(), Refusal>
    ensures { refusal_of result ≡ three_second_refusal observation.now order }
{
    observation.check()?;
    refuse_if(!is_order(order), Refusal::OrderOutOfRange)?;
    refuse_if(
        (observation.windows as usize) < ROWS_KEPT,
        Refusal::TooFewWindows,
    )
}

// The three-second value of an order, or the refusal.
#[tactic(auto, unfolding(crate::specs::ThreeSecond::three_second_answer))]
pub fn three_second_value(observation: &Observation, order: u32) -> Result<u64, Refusal>
    ensures { answer_of result ≡ three_second_answer observation.now order }
{
    check_call(observation, order)?;
    let values = kept_values(observation, order as usize - 1);
    Ok(three_second_of(&values))
}
