// The calls of `exported_judgements` for C.
ghost use Rattle.std.specs.Prelude.{◌≡◌};
ghost use Rattle.exported_judgements.specs.ThreeSecondCall.{three_second_call_refusal, three_second_call_exit};
ghost use Rattle.verdict.specs.Question.{asked};
ghost use Rattle.exported_judgements.specs.VerdictCall.{verdict_call_refusal, verdict_call_exit};

// Writes the three-second value of an order.
#[unsafe(no_mangle)]
pub extern "C" fn kifsang_three_second_value(words: &[u64], order: u32, value: &mut u64) -> u32
    ensures value { result ≡ three_second_call_refusal words.now order }
    ensures value_after { value.new ≡ three_second_call_exit words.now order value.old }
{
    exported_judgements::kifsang_three_second_value(words, order, value)
}

// Writes the number of the verdict of an order in a class.
#[unsafe(no_mangle)]
pub extern "C" fn kifsang_verdict(
    words: &[u64],
    order: u32,
    letter: u8,
    scale: u32,
    verdict: &mut u32,
) -> u32
    ensures value { result ≡ verdict_call_refusal words.now (asked order letter scale) }
    ensures verdict_after { verdict.new ≡ verdict_call_exit words.now (asked order letter scale) verdict.old }
{
    exported_judgements::kifsang_verdict(words, order, letter, scale, verdict)
}
