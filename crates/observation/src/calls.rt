// The calls that make a record and add a row to it.
ghost use Rattle.std.specs.Prelude.{◌≡◌};
ghost use Rattle.refusals.specs.Numbers.{no_refusal};
ghost use Rattle.refusals.specs.Answers.{refusal_of};
ghost use Rattle.observation.specs.Calls.{empty_record, refused_record, record_answer_of, fresh_answer, with_row, add_row_refusal, added_answer_of, add_row_answer};

use crate::RowRefused;
use crate::book::OrderBook;
use latest_rows::{VALUES_KEPT, keep_row};
use records::{MOST_WINDOWS, Observation};
use refusals::{Refusal, refuse_if};
use rows::{ORDER_COUNT, Row, Setup};

// A record of a setup with zeros.
#[tactic(auto, unfolding(crate::specs::Calls::empty_record))]
fn empty_record(setup: Setup) -> Observation
    ensures { result ≡ empty_record setup }
{
    Observation {
        setup,
        windows: 0,
        smoothed: [0; ORDER_COUNT],
        sum: [0; ORDER_COUNT],
        peak: [0; ORDER_COUNT],
        latest: [0; VALUES_KEPT],
    }
}

// What stands for the record where a fresh one is refused: zeros of the refused setup.
pub fn refused_record() -> Observation
    ensures { result ≡ refused_record }
{
    empty_record(Setup::refused())
}

// The record that a list of calls begins with. Refused: 1 unknown system, 19 unknown edition.
#[tactic(auto, unfolding(crate::specs::Calls::fresh_answer, crate::specs::Calls::fresh_refusal))]
pub fn fresh_record(setup: Setup) -> Result<Observation, Refusal>
    ensures { record_answer_of result ≡ fresh_answer setup }
{
    setup.check()?;
    Ok(empty_record(setup))
}

// The checks of a row, in order: 7 record not sound, 1 unknown system, 19 unknown edition, 8 another setup than the
// record's, 9 record full.
#[tactic(auto, unfolding(crate::specs::Calls::add_row_refusal, crate::specs::Calls::row_checks, rows::specs::Setups::same_setup))]
fn check_row(observation: &Observation, row: &Row) -> Result<(), Refusal>
    ensures { refusal_of result ≡ add_row_refusal observation.now row.now }
{
    observation.check()?;
    row.setup.check()?;
    refuse_if(row.setup != observation.setup, Refusal::OtherSetup)?;
    refuse_if(MOST_WINDOWS <= observation.windows, Refusal::RecordFull)
}

// Adds a row that is accepted: the book of each order takes its step, and the row is the latest.
fn take_row(observation: &mut Observation, row: &Row)
    requires { add_row_refusal observation.old row.now ≡ no_refusal }
    ensures { observation.new ≡ with_row observation.old row.now }
{
    for i in 0..ORDER_COUNT {
        let book = OrderBook {
            count: observation.windows,
            smoothed: observation.smoothed[i],
            sum: observation.sum[i],
            peak: observation.peak[i],
        };
        let next = book.step(row.values[i]);
        observation.smoothed[i] = next.smoothed;
        observation.sum[i] = next.sum;
        observation.peak[i] = next.peak;
    }
    keep_row(&mut observation.latest, observation.windows, &row.values);
    observation.windows += 1;
}

// A row added to a record, or the refusal with the record unchanged.
#[tactic(auto, unfolding(crate::specs::Calls::add_row_answer))]
pub fn add_row(mut observation: Observation, row: Row) -> Result<Observation, RowRefused>
    ensures { added_answer_of result ≡ add_row_answer observation row }
{
    if let Err(refusal) = check_row(&observation, &row) {
        return Err(RowRefused {
            refusal,
            observation,
        });
    }
    take_row(&mut observation, &row);
    Ok(observation)
}
