// The row of a window's harmonic groups with little scratch, for callers in other languages.
ghost use Rattle.std.specs.Prelude.{◌≡◌, length, IfOk, OnOk};
ghost use Rattle.rows.specs.Orders.{order_count};
ghost use Rattle.rows.specs.Setups.{setup_of};
ghost use Rattle.windows.specs.Window.{window_at};
ghost use Rattle.spectral_lines.specs.Line.{lines_of};
ghost use Rattle.kinds.specs.declared.Kind.TheVariants.{HarmonicGroup};
ghost use Rattle.groups.specs.Group.{group_values};
ghost use Rattle.exported_answers.specs.CallRefusals.{call_refusal_of};
ghost use Rattle.exported_lines.specs.PanelCall.{panel_call_refusal, panel_call_lines_exit, panel_call_values_exit};

use exported_answers::{CallRefusal, check_word_count, hand_over_row};
use rows::{ORDER_COUNT, Row, Setup};

// The row of the window's harmonic groups, for a caller with some room for its values.
#[tactic(auto, using(exported_answers::proofs::Handed::own_fault_first, exported_answers::proofs::Handed::library_next, refusals::proofs::Results::refused_is_no_acceptance), unfolding(crate::specs::PanelCall::panel_call_refusal, crate::specs::PanelCall::panel_call_lines_exit, panel::specs::Panel::panel_answer, panel::specs::Panel::panel_exit, groups::specs::Group::window_row))]
fn panel_row(
    setup: Setup,
    recording: &[i32],
    start: usize,
    lines: &mut [u64],
    values: &[u32],
) -> Result<Row, CallRefusal>
    ensures refusal { call_refusal_of result ≡ panel_call_refusal setup recording.now start lines.old values.now }
    ensures accepted { IfOk result (λ row. row.values ≡ group_values HarmonicGroup setup (lines_of (window_at recording.now start))) }
    ensures room { OnOk result (length values.now ≡ order_count) }
    ensures lines_after { lines.new ≡ panel_call_lines_exit setup recording.now start lines.old values.now }
{
    check_word_count(values.len(), ORDER_COUNT)?;
    Ok(panel::panel_row(setup, recording, start, lines)?)
}

// Writes the 40 harmonic groups of the window that begins at `start`. The lines are 13 for the call's own use and hold 0 after it.
#[tactic(auto, using(exported_answers::proofs::Handed::refused_call_is_no_acceptance), unfolding(crate::specs::PanelCall::panel_call_values_exit))]
pub fn kifsang_panel_row(
    recording: &[i32],
    start: usize,
    system: u32,
    edition: u32,
    lines: &mut [u64],
    values: &mut [u32],
) -> u32
    ensures value { result ≡ panel_call_refusal (setup_of system edition) recording.now start lines.old values.old }
    ensures lines_after { lines.new ≡ panel_call_lines_exit (setup_of system edition) recording.now start lines.old values.old }
    ensures values_after { values.new ≡ panel_call_values_exit (setup_of system edition) recording.now start lines.old values.old }
{
    let setup = Setup { system, edition };
    match panel_row(setup, recording, start, lines, values) {
        Ok(row) => hand_over_row(Ok(&row.values), values),
        Err(refusal) => hand_over_row(Err(refusal), values),
    }
}
