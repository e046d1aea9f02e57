// The verdict of an order, asked of an observation record.
ghost use Rattle.std.specs.Prelude.{◌≡◌};
ghost use Rattle.verdict.specs.Call.{combined, verdict_refusal, verdict_answer, verdict_answer_of, refusal_number};

use crate::{Question, Verdict};
use classes::Class;
use fractions::Ratio;
use limit_tests::{is_over, is_within, limit_in_units, peak_limit_in_units};
use limits::has_limit;
use records::Observation;
use refusals::{Refusal, refuse_if};

// The largest number of units per ampere.
const LARGEST_SCALE: u32 = 1 << 28;

// Over if either test is, within if both are, else close.
#[tactic(auto, unfolding(crate::specs::Call::combined))]
fn combined(average: Ratio, limit: Ratio, peak: Ratio, peak_limit: Ratio, order: u32) -> Verdict
    ensures { result ≡ combined average limit peak peak_limit order }
{
    if is_over(average, limit) || is_over(peak, peak_limit) {
        Verdict::Over(order)
    } else if is_within(average, limit) && is_within(peak, peak_limit) {
        Verdict::Within(order)
    } else {
        Verdict::Close(order)
    }
}

// The verdict of what is asked: the average against the limit of the class, and the peak against 150 % of it.
// Refused: 7 record not sound, 10 no window yet, 6 order outside 2..40, 15 class letter not A or B, 11 units per
// ampere outside 1..2^28.
#[tactic(auto, unfolding(crate::specs::Call::verdict_answer, crate::specs::Call::verdict_refusal, crate::specs::Call::refusal_number))]
pub fn order_verdict(observation: &Observation, question: Question) -> Result<Verdict, Refusal>
    ensures value { verdict_answer_of result ≡ verdict_answer observation.now question }
    ensures result_value { refusal_number (verdict_answer_of result) ≡ verdict_refusal observation.now question }
{
    let Question {
        order,
        letter,
        scale,
    } = question;
    observation.check()?;
    refuse_if(observation.windows == 0, Refusal::NoWindow)?;
    refuse_if(!has_limit(order), Refusal::OrderOutOfRange)?;
    let class = Class::try_from(letter)?;
    refuse_if(
        !(1..=LARGEST_SCALE).contains(&scale),
        Refusal::ScaleOutOfRange,
    )?;
    let place = (order - 1) as usize;
    let average = Ratio {
        numerator: observation.sum[place],
        denominator: u64::from(observation.windows),
    };
    let peak = Ratio {
        numerator: observation.peak[place],
        denominator: 1,
    };
    let limit = limit_in_units(class, order, scale);
    let peak_limit = peak_limit_in_units(class, order, scale);
    Ok(combined(average, limit, peak, peak_limit, order))
}
