// The limit of an order in a class.
ghost use Rattle.std.specs.Prelude.{cond, ◌≡◌, ◌%◌, ◌<◌, eqb};
ghost use Rattle.fractions.specs.Parts.{parts};
ghost use Rattle.limits.specs.Limit.{has_limit, limit_or_zero};

use crate::limit_table::{LimitRow, row_of};
use classes::Class;
use fractions::Ratio;
use rows::ORDER_COUNT;

// The orders 2..40 have a limit.
pub(crate) const FIRST_LIMITED: u32 = 2;

pub(crate) const LIMITED_ORDERS: usize = ORDER_COUNT - 1;

// Whether an order has a limit.
pub fn has_limit(order: u32) -> bool
    ensures { result ≡ has_limit order }
{
    (FIRST_LIMITED..=ORDER_COUNT as u32).contains(&order)
}

// A divisor where it divides the number, else 1.
fn divisor_or_one(number: u64, divisor: u64) -> u64
    requires { 0 < divisor }
    ensures { result ≡ cond (eqb (number % divisor) 0) divisor 1 }
{
    if number % divisor == 0 { divisor } else { 1 }
}

// What stands in place of a limit where there is none: 0.
const NO_LIMIT: Ratio = Ratio {
    numerator: 0,
    denominator: 1,
};

// The limit of an order in a class in milliamperes, in lowest terms, or 0 for an order that has none: class A's
// from the table, class B's as three halves of it. The parts of a row have no common divisor, so that those of
// three halves can share only 2 and 3.
pub fn class_limit(class: Class, order: u32) -> Ratio
    ensures { result ≡ parts (limit_or_zero class order) }
{
    let Some(LimitRow(_, numerator, denominator)) = row_of(order) else {
        return NO_LIMIT;
    };
    let numerator = u64::from(numerator);
    let denominator = u64::from(denominator);
    match class {
        Class::A => Ratio {
            numerator,
            denominator,
        },
        Class::B => {
            let common = divisor_or_one(numerator, 2) * divisor_or_one(denominator, 3);
            Ratio {
                numerator: 3 * numerator / common,
                denominator: 2 * denominator / common,
            }
        }
    }
}
