// The smoothing of a value, as the reported book of an order does it.
#![tactic(auto)]

ghost use Rattle.std.specs.Prelude.{◌≡◌};
ghost use Rattle.books.specs.Smoothing.{smoothed_value};

// The weights of a new value and of the old smoothed one: a time constant of 1.5 s at 0.2 s a window.
const NEW_WEIGHT: u64 = 1000;

const OLD_WEIGHT: u64 = 7012;

const BOTH_WEIGHTS: u64 = NEW_WEIGHT + OLD_WEIGHT;

// The units that a smoothed value may be off.
pub const SMOOTHED_MARGIN: u64 = 12;

// The weighted mean of a new value and the old smoothed one, to the nearest, halves up. It is no larger than the
// larger of the two.
#[tactic(auto, unfolding(crate::specs::Smoothing::smoothed_value, algebra::specs::Rounding::nearest))]
pub fn smoothed_value(new: u32, old: u32) -> u32
    ensures { result ≡ smoothed_value new old }
{
    let weighted = NEW_WEIGHT * u64::from(new) + OLD_WEIGHT * u64::from(old);
    ((2 * weighted + BOTH_WEIGHTS) / (2 * BOTH_WEIGHTS)) as u32
}
