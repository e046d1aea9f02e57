// The group value of a kind, a setup and an order over the 512 lines of a window.
ghost use Rattle.std.specs.Prelude.{◌≡◌};
ghost use Rattle.refusals.specs.Answers.{answer_of};
ghost use Rattle.refusals.specs.Numbers.{no_refusal};
ghost use Rattle.groups.specs.Group.{group_refusal, group_value, group_answer};

use kinds::{Kind, grouped_as, span_of};
use refusals::{Refusal, refuse_if};
use rows::{Setup, is_order};
use spans::{check_lines, span_sum};
use spectral_lines::LINE_COUNT;
use square_root::root;

// The whole part of the square root of the sum of 2×w×L, for a call that is not refused.
#[tactic(auto, using(crate::proofs::GroupSum::value_steps), unfolding(crate::specs::Group::group_value, crate::specs::Group::value_over))]
pub(crate) fn value_of(kind: Kind, setup: Setup, order: u32, lines: &[u64]) -> u32
    requires { group_refusal setup order lines.now ≡ no_refusal }
    ensures { result ≡ group_value kind setup order lines.now }
{
    let taken = grouped_as(kind, setup.edition, order);
    root(span_sum(lines, span_of(taken, setup.system, order)))
}

// The group value of an order, or the refusal.
#[tactic(auto, unfolding(crate::specs::Group::group_refusal, crate::specs::Group::group_answer))]
pub fn group_value(kind: Kind, setup: Setup, order: u32, lines: &[u64]) -> Result<u64, Refusal>
    ensures { answer_of result ≡ group_answer kind setup order lines.now }
{
    setup.check()?;
    refuse_if(!is_order(order), Refusal::OrderOutOfRange)?;
    check_lines(lines, LINE_COUNT)?;
    Ok(u64::from(value_of(kind, setup, order, lines)))
}
