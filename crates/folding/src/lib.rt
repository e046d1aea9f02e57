// A window folded before anything is multiplied (document 02, card 13): the samples j and 2048 − j first, and then on as far as the sine table's exact symmetries go.
// Where the wave at two places is the same, the sum of what they hold serves both; where it is opposite, their difference does. So each folding keeps every sum over the places,
// half of them serve the lines that end with it, and the other half go on. All is done in one list, and each place keeps its own angle.
// The list is not written unless every check has passed.
#![tactic(auto)]

ghost use Rattle.std.specs.Prelude.{◌≡◌, ◌*◌, ◌^◌, ◌≤◌, ◌<◌, length};
ghost use Rattle.refusals.specs.Answers.{refusal_of};
ghost use Rattle.windows.specs.Window.{window_length, largest_sample, InRange};
ghost use Rattle.windows.specs.Checks.{window_refusal};
ghost use Rattle.spectral_lines.specs.Folding.{held_by, folded};
ghost use Rattle.folding.specs.Halving.{Bounded, halved_from, folded_window};
ghost use Rattle.folding.specs.Folded.{folded_exit};

use refusals::Refusal;
use windows::{WINDOW_LENGTH, accepted_window};

// The last place of a window.
const LAST: usize = WINDOW_LENGTH - 1;
// The places of the cosine's sums after the pairs are 0..1024.
const PAIRED_REACH: usize = WINDOW_LENGTH / 2;

// Folds the list between two places: below the middle a place then holds the sum of its pair, above it the difference, and the middle what it held.
#[tactic(auto, using(crate::proofs::Partly::folding_steps))]
fn fold(list: &mut [i32], first: usize, last: usize)
    requires first_le_last { first ≤ last }
    requires last_in_bounds { last < length list.old }
    requires bounded { Bounded (2 ^ 29) (held_by list.old) }
    ensures { held_by list.new ≡ folded first last (held_by list.old) }
{
    for low in first..(first + last).div_ceil(2) {
        let high = first + last - low;
        let a = list[low];
        let b = list[high];
        list[low] = a + b;
        list[high] = b - a;
    }
}

// Halves the paired list again and again: the cosine's places from the front, the sine's at the end.
#[tactic(auto, using(crate::proofs::ToHalve::halving_steps))]
fn halve(list: &mut [i32])
    requires list_len { length list.old ≡ window_length }
    requires bounded { Bounded (2 * largest_sample) (held_by list.old) }
    ensures { held_by list.new ≡ halved_from 10 (held_by list.old) }
{
    let mut reach = PAIRED_REACH;
    while 1 < reach {
        fold(list, 0, reach);
        fold(list, WINDOW_LENGTH + 1 - reach, LAST);
        reach /= 2;
    }
}

// Writes a window in range, with all its foldings done, to the list. Its samples 0 and 1024 have no partner.
#[tactic(auto, using(crate::proofs::FoldedBounds::window_bounds), unfolding(crate::specs::Halving::folded_window))]
fn fold_all(window: &[i32], list: &mut [i32])
    requires in_range { InRange window.now }
    requires list_len { length list.old ≡ window_length }
    ensures { held_by list.new ≡ folded_window window.now }
{
    list.copy_from_slice(window);
    fold(list, 1, LAST);
    halve(list)
}

// The checks of a call for lines of the window that begins at `start`, of which the test of the buffer's length is the call's own; and where none finds a fault, the window folded to `list`.
// A refused call leaves `list` as it was.
#[tactic(auto, using(crate::proofs::FoldedList::folded_calls), unfolding(crate::specs::Folded::folded_exit))]
pub fn fold_window(
    recording: &[i32],
    start: usize,
    wrong_count: bool,
    list: &mut [i32; WINDOW_LENGTH],
) -> Result<(), Refusal>
    ensures value { refusal_of result ≡ window_refusal recording.now start wrong_count }
    ensures list_after { list.new ≡ folded_exit recording.now start wrong_count list.old }
{
    fold_all(accepted_window(recording, start, wrong_count)?, list);
    Ok(())
}
