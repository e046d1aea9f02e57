// The row of a window's harmonic groups with 13 lines of scratch (document 02, card 6): the lines of one group at a time.
// The last line of a group is the first of the next and is kept for it, so that no line is worked twice.
#![tactic(auto)]

ghost use Rattle.std.specs.Prelude.{true, false, ◌≡◌, ◌+◌, length};
ghost use Rattle.refusals.specs.Numbers.{no_refusal};
ghost use Rattle.rows.specs.Orders.{is_order};
ghost use Rattle.rows.specs.Rows.{row_answer_of};
ghost use Rattle.rows.specs.Setups.{is_setup};
ghost use Rattle.windows.specs.Window.{window_at};
ghost use Rattle.windows.specs.Checks.{window_refusal};
ghost use Rattle.spectral_lines.specs.Line.{line_of, lines_of};
ghost use Rattle.kinds.specs.declared.Kind.TheVariants.{HarmonicGroup};
ghost use Rattle.spans.specs.Spans.{line_at};
ghost use Rattle.groups.specs.Group.{group_value};
ghost use Rattle.panel.specs.Panel.{panel_line_count, panel_answer, panel_exit, first_line, panel_span};

use kinds::{Kind, Span, grouped_as, span_of};
use refusals::Refusal;
use rows::{ORDER_COUNT, Row, Setup};
use single_lines::lines_alone;
use spans::span_sum;
use square_root::root;
use windows::accepted_window;

// Lines of the buffer: the most that a group has.
pub const PANEL_LINES: usize = 13;

// The number of the first line of an order's harmonic group.
fn first_line(setup: Setup, order: u32) -> usize
    ensures { result ≡ first_line setup order }
{
    span_of(Kind::HarmonicGroup, setup.system, order).first
}

// The span of an order's group, counted from that line: all of them, or under A1 the component of order 1.
#[tactic(auto, unfolding(crate::specs::Panel::panel_span))]
fn panel_span(setup: Setup, order: u32) -> Span
    ensures { result ≡ panel_span setup order }
{
    let taken = grouped_as(Kind::HarmonicGroup, setup.edition, order);
    let span = span_of(taken, setup.system, order);
    Span {
        first: span.first.saturating_sub(first_line(setup, order)),
        ..span
    }
}

// Works an order's group, whose first line is there: its other lines, its value, and its last line to where the next order has its first.
// It is not refused, since the window is accepted and the lines are among the 512.
#[tactic(auto, using(crate::proofs::PanelLines::group_steps))]
fn work_group(
    setup: Setup,
    order: u32,
    recording: &[i32],
    start: usize,
    lines: &mut [u64],
) -> Result<u32, Refusal>
    requires known_setup { is_setup setup ≡ true }
    requires known_order { is_order order ≡ true }
    requires accepted { window_refusal recording.now start false ≡ no_refusal }
    requires room { length lines.old ≡ panel_line_count }
    requires first_there { line_at lines.old 0 ≡ line_of (window_at recording.now start) (first_line setup order) }
    ensures value { result ≡ Ok (group_value HarmonicGroup setup order (lines_of (window_at recording.now start))) }
    ensures lines_after { line_at lines.new 0 ≡ line_of (window_at recording.now start) (first_line setup (order + 1)) }
{
    let cycles = setup.system as usize;
    let second = first_line(setup, order) + 1;
    lines_alone(recording, start, second, &mut lines[1..=cycles])?;
    let value = root(span_sum(lines, panel_span(setup, order)));
    lines[0] = lines[cycles];
    Ok(value)
}

// The row of the harmonic groups of the window that begins at `start`, or the refusal. The lines are 13 for the call's own use and hold 0 after it;
// a refused call leaves them as they were: where both checks pass, no call after them is refused.
#[tactic(auto, using(crate::proofs::PanelLines::row_steps), unfolding(crate::specs::Panel::panel_answer, crate::specs::Panel::panel_exit, crate::specs::Panel::panel_refusal, windows::specs::Checks::window_refusal, rows::specs::Setups::is_setup, groups::specs::Group::window_row))]
pub fn panel_row(
    setup: Setup,
    recording: &[i32],
    start: usize,
    lines: &mut [u64],
) -> Result<Row, Refusal>
    ensures value { row_answer_of result ≡ panel_answer setup recording.now start lines.old }
    ensures lines_after { lines.new ≡ panel_exit setup recording.now start lines.old }
{
    setup.check()?;
    accepted_window(recording, start, lines.len() != PANEL_LINES)?;
    lines_alone(recording, start, first_line(setup, 1), &mut lines[..1])?;
    let mut values = [0; ORDER_COUNT];
    for i in 0..ORDER_COUNT {
        values[i] = work_group(setup, i as u32 + 1, recording, start, lines)?;
    }
    lines.fill(0);
    Ok(Row { setup, values })
}
