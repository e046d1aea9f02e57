// Reading a number column. A text is a slice of bytes that the caller lends.
#![tactic(auto)]

ghost use Rattle.std.specs.Prelude.{true, ◌≡◌, ◌==◌, ◌≤◌, ◌<◌, ◌^◌, ◌≤ℤ◌, pos, length, IfSome};
ghost use Rattle.std.specs.List.{prefix_len};
ghost use Rattle.columns.specs.Text.{blank};
ghost use Rattle.columns.specs.Column.{are_digits, is_whole, place_value, whole_number, negative_number, signed_number, after_blanks};
ghost use Rattle.columns.specs.Calls.{widest_read, number_answer_of, column_read_answer};

use columns::COLUMN_WIDTH;
use refusals::{Refusal, refuse_if};

// The number of a column of 8 bytes.
#[tactic(auto, unfolding(columns::specs::Calls::column_read_answer, columns::specs::Column::column_number))]
pub fn read_column(text: &[u8]) -> Result<i64, Refusal>
    ensures { number_answer_of result ≡ column_read_answer text.now }
{
    refuse_if(text.len() != COLUMN_WIDTH, Refusal::NotAColumn)?;
    signed_number(after_blanks(text)).ok_or(Refusal::NotAColumn)
}

// What is left of a text after the blanks that it begins with.
#[tactic(auto, using(columns::proofs::Readings::after_blanks_drop, columns::proofs::Readings::part_to_end))]
fn after_blanks(text: &[u8]) -> &[u8]
    ensures value { result.now ≡ after_blanks text.now }
    ensures bound { length result.now ≤ length text.now }
{
    &text[blank_count(text)..]
}

// How many blanks a text begins with.
fn blank_count(text: &[u8]) -> usize
    ensures value { result ≡ prefix_len (λ b. b == blank) text.now }
    ensures bound { result ≤ length text.now }
{
    text.iter().take_while(|byte| **byte == b' ').count()
}

// The number of a text without blanks before it.
#[tactic(auto, unfolding(columns::specs::Column::signed_number))]
fn signed_number(text: &[u8]) -> Option<i64>
    requires { length text.now ≤ widest_read }
    ensures { result ≡ signed_number text.now }
{
    match text {
        [] => None,
        [b'-', digits @ ..] => negative_number(digits),
        _ => whole_number(text),
    }
}

// The number of a text of digits that a minus stands before: no -0.
#[tactic(auto, unfolding(columns::specs::Column::negative_number, columns::specs::Column::whole_number))]
fn negative_number(digits: &[u8]) -> Option<i64>
    requires { length digits.now ≤ widest_read }
    ensures { result ≡ negative_number digits.now }
{
    let value = whole_number(digits)?;
    (value != 0).then_some(-value)
}

// The number of a text of digits.
#[tactic(auto, using(columns::proofs::Readings::digits_of_whole), unfolding(columns::specs::Column::whole_number))]
fn whole_number(digits: &[u8]) -> Option<i64>
    requires { length digits.now ≤ widest_read }
    ensures value { result ≡ whole_number digits.now }
    ensures bound { IfSome result (λ z. pos 0 ≤ℤ z) }
{
    is_whole(digits).then(|| place_value(digits) as i64)
}

// One digit or more, and no leading zero but the single 0.
#[tactic(auto, unfolding(columns::specs::Column::is_whole))]
fn is_whole(text: &[u8]) -> bool
    ensures { result ≡ is_whole text.now }
{
    match text {
        [] => false,
        [b'0', rest @ ..] => rest.is_empty(),
        _ => are_digits(text),
    }
}

fn are_digits(text: &[u8]) -> bool
    ensures { result ≡ are_digits text.now }
{
    text.iter().all(u8::is_ascii_digit)
}

// The number that digits stand for.
#[tactic(auto, using(columns::proofs::Readings::place_value_more, columns::proofs::Readings::place_value_small, columns::proofs::Readings::digit_at), unfolding(columns::specs::Column::place_value))]
fn place_value(digits: &[u8]) -> u64
    requires text_len_bound { length digits.now ≤ widest_read }
    requires text_value { are_digits digits.now ≡ true }
    ensures value { result ≡ place_value digits.now }
    ensures bound { result < 2 ^ 63 }
{
    let mut value = 0;
    for digit in digits {
        value = value * 10 + u64::from(*digit - b'0');
    }
    value
}
