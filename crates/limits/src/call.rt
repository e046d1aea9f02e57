// The limit of an order, asked for by the letter of a class, a byte, since 15 is the answer to one that names none.
ghost use Rattle.std.specs.Prelude.{◌≡◌};
ghost use Rattle.limits.specs.Call.{limit_answer, limit_answer_of};

use crate::limit::{class_limit, has_limit};
use classes::Class;
use fractions::Ratio;
use refusals::{Refusal, refuse_if};

// The limit of an order in a class in milliamperes, in lowest terms. Refused: 6 order outside 2..40, 15 class
// letter not A or B.
#[tactic(auto, unfolding(crate::specs::Call::limit_answer, crate::specs::Call::limit_refusal))]
pub fn order_limit(order: u32, letter: u8) -> Result<Ratio, Refusal>
    ensures { limit_answer_of result ≡ limit_answer order letter }
{
    refuse_if(!has_limit(order), Refusal::OrderOutOfRange)?;
    let class = Class::try_from(letter)?;
    Ok(class_limit(class, order))
}
