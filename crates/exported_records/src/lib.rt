// The calls for C, C++ and Rust programs that make a record and add a row to it; include/kifsang.h declares
// them. exported_answers says what they have in common.
#![tactic(auto)]

ghost use Rattle.std.specs.Prelude.{[], ◌∷◌, ◌≡◌, length, IfOk, OnOk};
ghost use Rattle.rows.specs.Orders.{order_count};
ghost use Rattle.rows.specs.Setups.{setup_of};
ghost use Rattle.observation.specs.Calls.{empty_record, with_row, add_row_refusal};
ghost use Rattle.exported_answers.specs.OwnChecks.{own_first, word_count_check};
ghost use Rattle.exported_answers.specs.CallRefusals.{call_refusal_of};
ghost use Rattle.record_words.specs.Words.{record_words, record_read};
ghost use Rattle.exported_records.specs.RecordCalls.{lent_row, fresh_call_refusal, fresh_call_exit, add_row_call_refusal, add_row_call_exit};

use exported_answers::{CallRefusal, check_word_count, lent_values};
use record_words::{RECORD_WORDS, hand_over_record, read_record};
use records::Observation;
use rows::{Row, Setup};

// A record with zeros, for a caller with some room for its words.
#[tactic(auto, using(exported_answers::proofs::Handed::own_fault_first, exported_answers::proofs::Handed::library_next), unfolding(crate::specs::RecordCalls::fresh_call_refusal, observation::specs::Calls::fresh_answer))]
fn fresh_record(setup: Setup, words: &[u64]) -> Result<Observation, CallRefusal>
    ensures refusal { call_refusal_of result ≡ fresh_call_refusal setup words.now }
    ensures accepted { IfOk result (λ o. o ≡ empty_record setup) }
    ensures room { OnOk result (length words.now ≡ record_words) }
{
    check_word_count(words.len(), RECORD_WORDS)?;
    Ok(observation::fresh_record(setup)?)
}

// Writes a record of a system and an edition with zeros.
#[tactic(auto, using(record_words::proofs::Handed::handed_record), unfolding(crate::specs::RecordCalls::fresh_call_exit))]
pub fn kifsang_fresh_record(system: u32, edition: u32, words: &mut [u64]) -> u32
    ensures value { result ≡ fresh_call_refusal (setup_of system edition) words.old }
    ensures words_after { words.new ≡ fresh_call_exit (setup_of system edition) words.old }
{
    let setup = Setup { system, edition };
    hand_over_record(fresh_record(setup, words), words)
}

// The record that some words hold, with a row added that is lent as words.
#[tactic(auto, using(exported_answers::proofs::Handed::own_fault_first, exported_answers::proofs::Handed::library_next), unfolding(observation::specs::Calls::add_row_answer))]
fn add_row(words: &[u64], setup: Setup, values: &[u32]) -> Result<Observation, CallRefusal>
    ensures refusal { call_refusal_of result ≡ own_first (word_count_check record_words words.now ∷ word_count_check order_count values.now ∷ []) (add_row_refusal (record_read words.now) (lent_row setup values.now)) }
    ensures accepted { IfOk result (λ o. o ≡ with_row (record_read words.now) (lent_row setup values.now)) }
    ensures room { OnOk result (length words.now ≡ record_words) }
{
    check_word_count(words.len(), RECORD_WORDS)?;
    let row = Row {
        setup,
        values: lent_values(values)?,
    };
    match observation::add_row(read_record(words), row) {
        Ok(added) => Ok(added),
        Err(refused) => Err(CallRefusal::Library(refused.refusal)),
    }
}

// Adds a row to a record.
pub fn kifsang_add_row(words: &mut [u64], system: u32, edition: u32, values: &[u32]) -> u32
    ensures value { result ≡ add_row_call_refusal words.old (setup_of system edition) values.now }
    ensures words_after { words.new ≡ add_row_call_exit words.old (setup_of system edition) values.now }
{
    let setup = Setup { system, edition };
    hand_over_record(add_row(words, setup, values), words)
}
