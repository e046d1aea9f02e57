// The limits of an order in units.
ghost use Rattle.std.specs.Prelude.{◌≡◌};
ghost use Rattle.fractions.specs.Parts.{parts};
ghost use Rattle.limit_tests.specs.Limit.{listed_in_units, listed_peak_in_units};

use classes::Class;
use fractions::Ratio;
use limits::class_limit;

// Milliamperes in an ampere.
const MILLIAMPERES: u64 = 1000;

// The limit of an order in a class, as it is listed, in units, or 0 for an order that has none.
#[tactic(auto, using(crate::proofs::Limits::held_le), unfolding(algebra::specs::Fraction::times, algebra::specs::Fraction::divide))]
pub fn limit_in_units(class: Class, order: u32, scale: u32) -> Ratio
    ensures { result ≡ parts (listed_in_units class order scale) }
{
    let limit = class_limit(class, order);
    Ratio {
        numerator: u64::from(scale) * limit.numerator,
        denominator: MILLIAMPERES * limit.denominator,
    }
}

// 150 % of that limit, as three halves: the limit of the peak.
#[tactic(auto, using(crate::proofs::Limits::held_in_units_le), unfolding(algebra::specs::Fraction::times, algebra::specs::Fraction::divide))]
pub fn peak_limit_in_units(class: Class, order: u32, scale: u32) -> Ratio
    ensures { result ≡ parts (listed_peak_in_units class order scale) }
{
    let limit = limit_in_units(class, order, scale);
    Ratio {
        numerator: 3 * limit.numerator,
        denominator: 2 * limit.denominator,
    }
}
