// Lines of a window that are each worked by themselves, with the quarter wave for all scratch (document 02, card 6): for callers that have little of it, or want few lines.
// Nothing is written unless every check has passed.
#![tactic(auto)]

mod alone;

ghost use Rattle.std.specs.Prelude.{◌≡◌, ◌+◌, ◌≤◌, length};
ghost use Rattle.refusals.specs.Answers.{refusal_of};
ghost use Rattle.spectral_lines.specs.Line.{line_limit, lines_from};
ghost use Rattle.spectral_lines.specs.Calls.{lines_from_refusal, lines_from_exit};

use alone::Window;
use refusals::Refusal;
use spectral_lines::reach_past;
use windows::accepted_window;

// Writes a window's lines from `first` on, as many as the buffer holds, each by itself. `spectrum` has such a loop over windows of its own: a trait with its law
// for both would be longer than the two.
#[tactic(auto, using(spectral_lines::proofs::Lines::lines_from_places))]
fn fill_alone(window: &Window, first: usize, lines: &mut [u64])
    requires { first + length lines.old ≤ line_limit }
    ensures { lines.new ≡ lines_from first (length lines.old) window.now.samples.now }
{
    for i in 0..lines.len() {
        lines[i] = window.line(first + i);
    }
}

// Writes the lines from `first` on of the window that begins at `start` to `lines`, as many as `lines` holds:
// what `spectrum::lines_from` does, with less scratch and more time for a line. A refused call leaves `lines` as they were.
#[tactic(auto, unfolding(windows::specs::Checks::window_refusal, spectral_lines::specs::Calls::lines_from_refusal, spectral_lines::specs::Calls::lines_from_exit))]
pub fn lines_alone(
    recording: &[i32],
    start: usize,
    first: usize,
    lines: &mut [u64],
) -> Result<(), Refusal>
    ensures value { refusal_of result ≡ lines_from_refusal recording.now start first lines.old }
    ensures lines_after { lines.new ≡ lines_from_exit recording.now start first lines.old }
{
    let samples = accepted_window(recording, start, reach_past(first, lines.len()))?;
    let quarter = sine::quarter_wave();
    let window = Window {
        samples,
        quarter: &quarter,
    };
    fill_alone(&window, first, lines);
    Ok(())
}
