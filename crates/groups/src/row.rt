// The row of the group values of all orders.
ghost use Rattle.std.specs.Prelude.{◌≡◌};
ghost use Rattle.rows.specs.Rows.{row_answer_of};
ghost use Rattle.groups.specs.Group.{group_row_answer};

use crate::group::value_of;
use kinds::Kind;
use refusals::Refusal;
use rows::{ORDER_COUNT, Row, Setup};
use spans::check_lines;
use spectral_lines::LINE_COUNT;

// The row of the group values of the orders 1..40, or the refusal. The lines are looked over once.
#[tactic(auto, using(crate::proofs::GroupSum::row_steps), unfolding(crate::specs::Group::group_refusal, crate::specs::Group::group_row_refusal, crate::specs::Group::group_row_answer))]
pub fn group_row(kind: Kind, setup: Setup, lines: &[u64]) -> Result<Row, Refusal>
    ensures { row_answer_of result ≡ group_row_answer kind setup lines.now }
{
    setup.check()?;
    check_lines(lines, LINE_COUNT)?;
    let mut values = [0; ORDER_COUNT];
    for i in 0..ORDER_COUNT {
        values[i] = value_of(kind, setup, i as u32 + 1, lines);
    }
    Ok(Row { setup, values })
}
