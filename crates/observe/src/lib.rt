// From the samples of windows back to back to the record after them, by the calls that a user would
// make in turn. The first call that is refused decides.
#![tactic(auto)]

ghost use Rattle.std.specs.Prelude.{◌≡◌};
ghost use Rattle.rows.specs.Rows.{row_answer_of};
ghost use Rattle.observation.specs.Calls.{record_answer_of};
ghost use Rattle.observe.specs.Observe.{observe_answer};
ghost use Rattle.observe.specs.Calls.{row_calls};

use groups::group_row;
use kinds::Kind;
use observation::{add_row, fresh_record};
use records::Observation;
use refusals::Refusal;
use rows::{Row, Setup};
use spectral_lines::LINE_COUNT;
use spectrum::spectrum;
use windows::WINDOW_LENGTH;

// The row of the window that begins at `at`.
#[tactic(auto, unfolding(crate::specs::Calls::row_calls))]
fn row_at(recording: &[i32], at: usize, setup: Setup, kind: Kind) -> Result<Row, Refusal>
    ensures { row_answer_of result ≡ row_calls kind setup recording.now at }
{
    let mut lines = [0; LINE_COUNT];
    spectrum(recording, at, &mut lines)?;
    group_row(kind, setup, &lines)
}

// The record after `windows` windows back to back, the first of which begins at `start`, by the
// groups of one kind. Refused: 1 unknown system, 19 unknown edition; then window by window 2 fewer
// than 2,048 samples from its start, 3 a sample out of range, 9 45,000 windows held.
pub fn observe(
    recording: &[i32],
    start: usize,
    windows: usize,
    setup: Setup,
    kind: Kind,
) -> Result<Observation, Refusal>
    ensures { record_answer_of result ≡ observe_answer kind setup recording.now start windows }
{
    let mut observation = fresh_record(setup)?;
    for i in 0..windows {
        let row = row_at(recording, start + WINDOW_LENGTH * i, setup, kind)?;
        observation = add_row(observation, row)?;
    }
    Ok(observation)
}
