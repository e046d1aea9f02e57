// The call for C, C++ and Rust programs from a recording's windows to a record; include/kifsang.h declares it.
// exported_answers says what the exported calls have in common.
#![tactic(auto)]

ghost use Rattle.std.specs.Prelude.{◌≡◌, length, IfOk, OnOk};
ghost use Rattle.rows.specs.Setups.{setup_of};
ghost use Rattle.observation.specs.Calls.{empty_record};
ghost use Rattle.observation.specs.RecordAfter.{record_after};
ghost use Rattle.observe.specs.Observe.{window_rows};
ghost use Rattle.exported_answers.specs.CallRefusals.{call_refusal_of};
ghost use Rattle.record_words.specs.Words.{record_words};
ghost use Rattle.kind_numbers.specs.Kinds.{kind_with};
ghost use Rattle.exported_observe.specs.ObserveCall.{observe_call_refusal, observe_call_exit};

use exported_answers::CallRefusal;
use kind_numbers::kind_with_words;
use record_words::{RECORD_WORDS, hand_over_record};
use records::Observation;
use rows::Setup;

// The record after windows back to back, of a kind that is given by its number, for a caller with some room for its words.
#[tactic(auto, using(exported_answers::proofs::Handed::own_fault_first, exported_answers::proofs::Handed::library_next), unfolding(crate::specs::ObserveCall::observe_call_refusal, observe::specs::Observe::observe_answer))]
fn observe(
    recording: &[i32],
    start: usize,
    windows: usize,
    setup: Setup,
    kind: u32,
    words: &[u64],
) -> Result<Observation, CallRefusal>
    ensures refusal { call_refusal_of result ≡ observe_call_refusal kind setup recording.now start windows words.now }
    ensures accepted { IfOk result (λ o. o ≡ record_after (empty_record setup) (window_rows (kind_with kind) setup recording.now start windows)) }
    ensures room { OnOk result (length words.now ≡ record_words) }
{
    let kind = kind_with_words(kind, words.len(), RECORD_WORDS)?;
    Ok(observe::observe(recording, start, windows, setup, kind)?)
}

// Writes the record after windows back to back, each with the row of a kind.
#[tactic(auto, using(record_words::proofs::Handed::handed_record), unfolding(crate::specs::ObserveCall::observe_call_exit))]
pub fn kifsang_observe(
    recording: &[i32],
    start: usize,
    windows: usize,
    system: u32,
    edition: u32,
    kind: u32,
    words: &mut [u64],
) -> u32
    ensures value { result ≡ observe_call_refusal kind (setup_of system edition) recording.now start windows words.old }
    ensures words_after { words.new ≡ observe_call_exit kind (setup_of system edition) recording.now start windows words.old }
{
    let setup = Setup { system, edition };
    hand_over_record(
        observe(recording, start, windows, setup, kind, words),
        words,
    )
}
