// From a window of a lent recording to its spectral lines: the 512 of its spectrum, or any part of its lines 0..1023.
// The crate `folding` has what is done to the samples before anything is multiplied, sums.rt one line of a folded window. The wave and the folded window are made once in a call and lent to the sums.
// Nothing is written unless every check has passed.
#![tactic(auto)]

mod sums;

ghost use Rattle.std.specs.Prelude.{false, ◌≡◌, ◌+◌, ◌≤◌, length};
ghost use Rattle.refusals.specs.Answers.{refusal_of};
ghost use Rattle.windows.specs.Checks.{window_refusal};
ghost use Rattle.spectral_lines.specs.Line.{line_limit};
ghost use Rattle.spectral_lines.specs.Calls.{lines_from_refusal, lines_from_exit};
ghost use Rattle.spectrum.specs.Spectrum.{spectrum_refusal, spectrum_exit};
ghost use Rattle.spectrum.specs.Prepared.{LinesOfFolded, window_exit};

use folding::fold_window;
use refusals::Refusal;
use sine::TURN;
use spectral_lines::{LINE_COUNT, reach_past};
use sums::FoldedWindow;
use windows::WINDOW_LENGTH;

// Writes a folded window's lines from `first` on, as many as the buffer holds. `single_lines` has such a loop over windows of its own: a trait with its law for both
// would be longer than the two.
#[tactic(auto, using(spectral_lines::proofs::Lines::lines_from_places))]
fn fill_lines(window: &FoldedWindow, first: usize, lines: &mut [u64])
    requires { first + length lines.old ≤ line_limit }
    ensures { LinesOfFolded window.now.folded.now first (length lines.old) lines.new }
{
    for i in 0..lines.len() {
        lines[i] = window.line(first + i);
    }
}

// The checks, and the lines where nothing is refused.
#[tactic(auto, using(crate::proofs::AcceptedLines::right_count), unfolding(crate::specs::Prepared::window_exit))]
fn answer_lines(
    recording: &[i32],
    start: usize,
    wrong_count: bool,
    first: usize,
    lines: &mut [u64],
) -> Result<(), Refusal>
    requires { wrong_count ≡ false → first + length lines.old ≤ line_limit }
    ensures value { refusal_of result ≡ window_refusal recording.now start wrong_count }
    ensures lines_after { lines.new ≡ window_exit recording.now start wrong_count first lines.old }
{
    let mut folded = [0; WINDOW_LENGTH];
    fold_window(recording, start, wrong_count, &mut folded)?;
    let mut wave = [0; TURN];
    sine::fill_wave(&mut wave);
    let window = FoldedWindow {
        folded: &folded,
        wave: &wave,
    };
    fill_lines(&window, first, lines);
    Ok(())
}

// Writes the 512 lines of the window that begins at `start` to `lines`.
// A refused call leaves `lines` as they were.
#[tactic(auto, unfolding(windows::specs::Checks::window_refusal, spectral_lines::specs::Line::lines_of, crate::specs::Prepared::window_exit, crate::specs::Spectrum::spectrum_refusal, crate::specs::Spectrum::spectrum_exit))]
pub fn spectrum(recording: &[i32], start: usize, lines: &mut [u64]) -> Result<(), Refusal>
    ensures value { refusal_of result ≡ spectrum_refusal recording.now start lines.old }
    ensures lines_after { lines.new ≡ spectrum_exit recording.now start lines.old }
{
    answer_lines(recording, start, lines.len() != LINE_COUNT, 0, lines)
}

// Writes the lines from `first` on of the window that begins at `start` to `lines`, as many as `lines` holds.
// A refused call leaves `lines` as they were.
#[tactic(auto, unfolding(windows::specs::Checks::window_refusal, crate::specs::Prepared::window_exit, spectral_lines::specs::Calls::lines_from_refusal, spectral_lines::specs::Calls::lines_from_exit))]
pub fn lines_from(
    recording: &[i32],
    start: usize,
    first: usize,
    lines: &mut [u64],
) -> Result<(), Refusal>
    ensures value { refusal_of result ≡ lines_from_refusal recording.now start first lines.old }
    ensures lines_after { lines.new ≡ lines_from_exit recording.now start first lines.old }
{
    answer_lines(
        recording,
        start,
        reach_past(first, lines.len()),
        first,
        lines,
    )
}
