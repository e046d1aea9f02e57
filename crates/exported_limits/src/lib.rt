// The call for C, C++ and Rust programs from an order and a class to the limit; include/kifsang.h declares it.
// exported_answers says what the exported calls have in common.
#![tactic(auto)]

ghost use Rattle.std.specs.Prelude.{◌≡◌};
ghost use Rattle.limits.specs.Call.{limit_refusal};
ghost use Rattle.exported_limits.specs.LimitCall.{limit_numerator_exit, limit_denominator_exit};

use limits::order_limit;
use refusals::NO_REFUSAL;

// Writes the limit of an order in a class in milliamperes, as a numerator over a denominator.
#[tactic(auto, unfolding(crate::specs::LimitCall::limit_numerator_exit, crate::specs::LimitCall::limit_denominator_exit, limits::specs::Call::limit_answer))]
pub fn kifsang_limit(order: u32, letter: u8, numerator: &mut u64, denominator: &mut u64) -> u32
    ensures value { result ≡ limit_refusal order letter }
    ensures numerator_after { numerator.new ≡ limit_numerator_exit order letter numerator.old }
    ensures denominator_after { denominator.new ≡ limit_denominator_exit order letter denominator.old }
{
    match order_limit(order, letter) {
        Ok(limit) => {
            *numerator = limit.numerator;
            *denominator = limit.denominator;
            NO_REFUSAL
        }
        Err(refusal) => refusal.number(),
    }
}
