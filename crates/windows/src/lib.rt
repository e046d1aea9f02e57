// The window: a part of the lent recording, from its middle; the range of its samples; the checks of a call that is lent a recording; and what a sample is multiplied by.
// Every function takes whatever it is handed. A recording goes with a start, since document 01 has a window begin anywhere in a lent recording.
#![tactic(auto)]

ghost use Rattle.std.specs.Prelude.{◌≡◌, ◌*ℤ◌, IfOk};
ghost use Rattle.std.specs.List.{list_any};
ghost use Rattle.refusals.specs.Answers.{refusal_of};
ghost use Rattle.windows.specs.Window.{window_at, out_of_range};
ghost use Rattle.windows.specs.Checks.{window_refusal};

use refusals::{Refusal, refuse_if};

// Samples in a window.
pub const WINDOW_LENGTH: usize = 2048;
// The largest sample; the smallest is its negative.
const LARGEST_SAMPLE: i32 = 131071;
// The same at the width of a number that was read from a text.
const LARGEST_NUMBER: i64 = LARGEST_SAMPLE as i64;

// The samples from `start` on, at most 2,048 of them: fewer, or none, where the recording ends before.
pub fn window_at(recording: &[i32], start: usize) -> &[i32]
    ensures { result.now ≡ window_at recording.now start }
{
    let first = start.min(recording.len());
    let end = first + WINDOW_LENGTH.min(recording.len() - first);
    &recording[first..end]
}

// A number that was read from a text is out of a sample's range.
pub fn out_of_range(number: i64) -> bool
    ensures { result ≡ out_of_range number }
{
    (number < -LARGEST_NUMBER) | (LARGEST_NUMBER < number)
}

// A sample is out of range: `out_of_range` in 32 bits, in which a scan over samples takes half the time.
fn is_outside(sample: i32) -> bool
    ensures { result ≡ out_of_range sample }
{
    (sample < -LARGEST_SAMPLE) | (LARGEST_SAMPLE < sample)
}

// Some sample of the window is out of range. All are looked at, so that the loop has no branch.
pub fn any_out_of_range(window: &[i32]) -> bool
    ensures { result ≡ list_any out_of_range window.now }
{
    let mut found = false;
    for sample in window {
        found |= is_outside(*sample);
    }
    found
}

// The window of a call for its lines, where the row of checks finds no fault. The test of the buffer's length is the call's own.
#[tactic(auto, using(crate::proofs::ShortWindow::short_test), unfolding(crate::specs::Checks::window_refusal))]
pub fn accepted_window(
    recording: &[i32],
    start: usize,
    wrong_count: bool,
) -> Result<&[i32], Refusal>
    ensures value { refusal_of result ≡ window_refusal recording.now start wrong_count }
    ensures window { IfOk result (λ window. window.now ≡ window_at recording.now start) }
{
    let window = window_at(recording, start);
    refuse_if(window.len() < WINDOW_LENGTH, Refusal::ShortWindow)?;
    refuse_if(wrong_count, Refusal::WrongLineCount)?;
    refuse_if(any_out_of_range(window), Refusal::SampleOutOfRange)?;
    Ok(window)
}

// The product of two numbers of 32 bits, a sample and what it is multiplied by: 64 bits hold it.
pub fn product(a: i32, b: i32) -> i64
    ensures { result ≡ a *ℤ b }
{
    i64::from(a) * i64::from(b)
}
