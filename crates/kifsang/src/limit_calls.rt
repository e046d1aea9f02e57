// The calls of `exported_limits` for C.
ghost use Rattle.std.specs.Prelude.{◌≡◌};
ghost use Rattle.limits.specs.Call.{limit_refusal};
ghost use Rattle.exported_limits.specs.LimitCall.{limit_numerator_exit, limit_denominator_exit};

// Writes the limit of an order in a class in milliamperes, as a numerator over a denominator.
#[unsafe(no_mangle)]
pub extern "C" fn kifsang_limit(
    order: u32,
    letter: u8,
    numerator: &mut u64,
    denominator: &mut u64,
) -> u32
    ensures value { result ≡ limit_refusal order letter }
    ensures numerator_after { numerator.new ≡ limit_numerator_exit order letter numerator.old }
    ensures denominator_after { denominator.new ≡ limit_denominator_exit order letter denominator.old }
{
    exported_limits::kifsang_limit(order, letter, numerator, denominator)
}
