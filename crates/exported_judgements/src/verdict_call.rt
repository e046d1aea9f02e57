// The verdict of an order, for callers in other languages.
ghost use Rattle.std.specs.Prelude.{[], ◌∷◌, ◌≡◌, IfOk};
ghost use Rattle.verdict.specs.Question.{asked};
ghost use Rattle.verdict.specs.Call.{verdict_of, verdict_refusal};
ghost use Rattle.exported_answers.specs.OwnChecks.{own_first, word_count_check};
ghost use Rattle.exported_answers.specs.CallRefusals.{call_refusal_of};
ghost use Rattle.record_words.specs.Words.{record_words, record_read};
ghost use Rattle.exported_judgements.specs.VerdictCall.{verdict_number, verdict_call_refusal, verdict_call_exit};

use exported_answers::{CallRefusal, check_word_count, hand_over};
use observation::refused_record;
use record_words::{RECORD_WORDS, fill_record};
use verdict::{Question, Verdict};

// The number of each case of a verdict. 0 is none, so that a variable that was zeroed and that no
// call wrote says nothing.
#[tactic(auto, unfolding(crate::specs::VerdictCall::verdict_number))]
fn verdict_number(verdict: Verdict) -> u32
    ensures { result ≡ verdict_number verdict }
{
    match verdict {
        Verdict::Within(_) => 1,
        Verdict::Close(_) => 2,
        Verdict::Over(_) => 3,
    }
}

// The number of the verdict of what is asked of the record that some words hold.
#[tactic(auto, using(exported_answers::proofs::Handed::own_fault_first, exported_answers::proofs::Handed::library_next), unfolding(verdict::specs::Call::verdict_answer))]
fn order_verdict(words: &[u64], question: Question) -> Result<u32, CallRefusal>
    ensures refusal { call_refusal_of result ≡ own_first (word_count_check record_words words.now ∷ []) (verdict_refusal (record_read words.now) question) }
    ensures accepted { IfOk result (λ number. number ≡ verdict_number (verdict_of (record_read words.now) question)) }
{
    check_word_count(words.len(), RECORD_WORDS)?;
    let mut observation = refused_record();
    fill_record(words, &mut observation);
    let verdict = verdict::order_verdict(&observation, question)?;
    Ok(verdict_number(verdict))
}

// Writes the number of the verdict of an order in a class.
pub fn kifsang_verdict(words: &[u64], order: u32, letter: u8, scale: u32, verdict: &mut u32) -> u32
    ensures value { result ≡ verdict_call_refusal words.now (asked order letter scale) }
    ensures verdict_after { verdict.new ≡ verdict_call_exit words.now (asked order letter scale) verdict.old }
{
    let question = Question {
        order,
        letter,
        scale,
    };
    hand_over(order_verdict(words, question), verdict)
}
