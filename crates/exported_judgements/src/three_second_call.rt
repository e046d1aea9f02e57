// The three-second value of an order, for callers in other languages.
ghost use Rattle.std.specs.Prelude.{[], ◌∷◌, ◌≡◌, IfOk};
ghost use Rattle.three_seconds.specs.ThreeSecond.{three_second_in, three_second_refusal};
ghost use Rattle.exported_answers.specs.OwnChecks.{own_first, word_count_check};
ghost use Rattle.exported_answers.specs.CallRefusals.{call_refusal_of};
ghost use Rattle.record_words.specs.Words.{record_words, record_read};
ghost use Rattle.exported_judgements.specs.ThreeSecondCall.{three_second_call_refusal, three_second_call_exit};

use exported_answers::{CallRefusal, check_word_count, hand_over};
use observation::refused_record;
use record_words::{RECORD_WORDS, fill_record};

// The three-second value of an order of the record that some words hold.
#[tactic(auto, using(exported_answers::proofs::Handed::own_fault_first, exported_answers::proofs::Handed::library_next), unfolding(three_seconds::specs::ThreeSecond::three_second_answer))]
fn three_second_value(words: &[u64], order: u32) -> Result<u64, CallRefusal>
    ensures refusal { call_refusal_of result ≡ own_first (word_count_check record_words words.now ∷ []) (three_second_refusal (record_read words.now) order) }
    ensures accepted { IfOk result (λ value. value ≡ three_second_in (record_read words.now) order) }
{
    check_word_count(words.len(), RECORD_WORDS)?;
    let mut observation = refused_record();
    fill_record(words, &mut observation);
    Ok(three_seconds::three_second_value(&observation, order)?)
}

// Writes the three-second value of an order.
pub fn kifsang_three_second_value(words: &[u64], order: u32, value: &mut u64) -> u32
    ensures value { result ≡ three_second_call_refusal words.now order }
    ensures value_after { value.new ≡ three_second_call_exit words.now order value.old }
{
    hand_over(three_second_value(words, order), value)
}
