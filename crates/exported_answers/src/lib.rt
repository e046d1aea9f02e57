// What the exported calls have in common. Each passes numbers, single-number references and slices on to
// the proved library. It answers a refusal's number, NO_REFUSAL where it accepts the call, and a refused
// call leaves every buffer as it was. What the caller receives of an answer, its value or the values of a
// row, is handed over here.
#![tactic(auto)]

ghost use Rattle.std.specs.Prelude.{[], ◌∷◌, ◌≡◌, not, eqb, IfOk, OnOk};
ghost use Rattle.std.specs.Result.{result_unwrap_or, result_map_both};
ghost use Rattle.refusals.specs.Answers.{first_fault, refusal_of};
ghost use Rattle.rows.specs.Orders.{order_count};
ghost use Rattle.exported_answers.specs.OwnChecks.{wrong_word_count, word_count_check};
ghost use Rattle.exported_answers.specs.CallRefusals.{call_number_of, call_refusal_of, values_left};
ghost use Rattle.exported_answers.specs.declared.CallRefusal.TheVariants.{Library};

mod other_number;

use lists::put_numbers;
pub use other_number::OtherNumber;
use refusals::{NO_REFUSAL, Refusal};
use rows::{ORDER_COUNT, first_values};

// Why an exported call is refused: what a number or a slice from another language may hold and a type of the library may not, or what the library says.
#[derive(Clone, Copy, Debug, PartialEq, Eq)]
pub enum CallRefusal {
    // A number that stands for no kind.
    UnknownKind,
    // A slice of the wrong number of words for a row or a record.
    WrongWordCount,
    Library(Refusal),
    // A refusal of which only its number is known.
    Numbered(OtherNumber),
}

impl CallRefusal {
    // Its number, which the caller receives: past those of the documents for the calls' own.
    pub fn number(self) -> u32
        ensures { result ≡ call_number_of self }
    {
        match self {
            CallRefusal::UnknownKind => 101,
            CallRefusal::WrongWordCount => 102,
            CallRefusal::Library(refusal) => refusal.number(),
            CallRefusal::Numbered(other) => other.number,
        }
    }
}

impl From<Refusal> for CallRefusal {
    ghost from_gives = { λ refusal own. own ≡ Library refusal };

    fn from(refusal: Refusal) -> CallRefusal {
        CallRefusal::Library(refusal)
    }
}

// The check that some words are so many.
pub fn check_word_count(words: usize, count: usize) -> Result<(), CallRefusal>
    ensures refusal { call_refusal_of result ≡ first_fault ((not (eqb words count), wrong_word_count) ∷ []) }
    ensures passed { OnOk result (words ≡ count) }
{
    if words == count {
        Ok(())
    } else {
        Err(CallRefusal::WrongWordCount)
    }
}

// The 40 values of a row that is lent as words. Refused: 102 not 40 of them.
pub fn lent_values(words: &[u32]) -> Result<[u32; ORDER_COUNT], CallRefusal>
    ensures refusal { call_refusal_of result ≡ first_fault (word_count_check order_count words.now ∷ []) }
    ensures values { IfOk result (λ values. values ≡ words.now) }
{
    check_word_count(words.len(), ORDER_COUNT)?;
    Ok(first_values(words))
}

// The number of a call of the library that hands nothing over but what it wrote.
pub fn number_answered(answer: Result<(), Refusal>) -> u32
    ensures { result ≡ refusal_of answer }
{
    match answer {
        Ok(()) => NO_REFUSAL,
        Err(reason) => reason.number(),
    }
}

// Hands an answer to the caller: its value, unless the call is refused, and the refusal's number.
pub fn hand_over<T: Copy>(answer: Result<T, CallRefusal>, value: &mut T) -> u32
    ensures value { result ≡ call_refusal_of answer }
    ensures value_after { value.new ≡ result_unwrap_or answer value.old }
{
    match answer {
        Ok(accepted) => {
            *value = accepted;
            NO_REFUSAL
        }
        Err(refusal) => refusal.number(),
    }
}

// Hands the values of a row to the caller, unless the call is refused, and the refusal's number. The row may have any number of values: 0 stands past its last.
pub fn hand_over_row(answer: Result<&[u32], CallRefusal>, values: &mut [u32]) -> u32
    ensures value { result ≡ call_refusal_of answer.entry }
    ensures values_after { values.new ≡ values_left (result_map_both (λ row. row.now) (λ refusal. refusal) answer.entry) values.old }
{
    match answer {
        Ok(row) => {
            put_numbers(row, values);
            NO_REFUSAL
        }
        Err(refused) => refused.number(),
    }
}
