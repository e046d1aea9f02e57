// The numbers that stand for the kinds of a group, for callers in other languages.
#![tactic(auto)]

ghost use Rattle.std.specs.Prelude.{[], ◌∷◌, ◌≡◌, not, eqb, IfOk, OnOk};
ghost use Rattle.refusals.specs.Answers.{first_fault};
ghost use Rattle.exported_answers.specs.OwnChecks.{wrong_word_count};
ghost use Rattle.exported_answers.specs.CallRefusals.{call_refusal_of};
ghost use Rattle.kind_numbers.specs.Kinds.{is_kind, kind_with, kind_check};

use exported_answers::{CallRefusal, check_word_count};
use kinds::Kind;

// The kinds have the numbers 0..KIND_COUNT - 1.
const KIND_COUNT: u32 = 5;

// The number stands for a kind.
#[tactic(auto, unfolding(crate::specs::Kinds::is_kind, crate::specs::Kinds::kinds))]
pub fn is_kind(number: u32) -> bool
    ensures { result ≡ is_kind number }
{
    number < KIND_COUNT
}

// The kind with a number.
#[tactic(auto, unfolding(crate::specs::Kinds::kind_with, crate::specs::Kinds::kinds))]
pub fn kind_with(number: u32) -> Kind
    ensures { result ≡ kind_with number }
{
    match number {
        0 => Kind::Component,
        1 => Kind::HarmonicGroup,
        2 => Kind::HarmonicSubgroup,
        3 => Kind::InterharmonicGroup,
        _ => Kind::InterharmonicCentredSubgroup,
    }
}

// The kind with a number. Refused: 101 no kind has the number.
pub fn kind_numbered(number: u32) -> Result<Kind, CallRefusal>
    ensures refusal { call_refusal_of result ≡ first_fault (kind_check number ∷ []) }
    ensures kind { IfOk result (λ kind. kind ≡ kind_with number) }
{
    if is_kind(number) {
        Ok(kind_with(number))
    } else {
        Err(CallRefusal::UnknownKind)
    }
}

// The kind with a number, for a call that takes words too. Refused: 101 no kind has the number, 102 the words are not so many.
pub fn kind_with_words(number: u32, words: usize, count: usize) -> Result<Kind, CallRefusal>
    ensures refusal { call_refusal_of result ≡ first_fault (kind_check number ∷ (not (eqb words count), wrong_word_count) ∷ []) }
    ensures kind { IfOk result (λ kind. kind ≡ kind_with number) }
    ensures passed { OnOk result (words ≡ count) }
{
    let kind = kind_numbered(number)?;
    check_word_count(words, count)?;
    Ok(kind)
}
