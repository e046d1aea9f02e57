// Writing a number column of any width: blanks, a minus below 0, and the digits from the right. The caller lends the buffer.
#![tactic(auto)]

ghost use Rattle.std.specs.Prelude.{◌≡◌, ◌≤◌, ◌<◌, ◌^◌, ◌++◌, nat_abs, length, drop, replicate};
ghost use Rattle.refusals.specs.Answers.{refusal_of};
ghost use Rattle.columns.specs.Text.{blank, AtEnd};
ghost use Rattle.columns.specs.Column.{digit_byte, decimal_text, number_text, fits_column};
ghost use Rattle.columns.specs.Calls.{column_write_refusal, column_write_exit, column_fill_refusal, column_fill_exit};

use columns::COLUMN_WIDTH;
use refusals::{Refusal, refuse_if};

// Writes the column of a number into a buffer of 8 bytes. Refused: 14 a buffer of another length, 13 a number that is wider.
pub fn write_column(buffer: &mut [u8], number: i64) -> Result<(), Refusal>
    ensures value { refusal_of result ≡ column_write_refusal buffer.old number }
    ensures buffer_after { buffer.new ≡ column_write_exit buffer.old number }
{
    refuse_if(buffer.len() != COLUMN_WIDTH, Refusal::WrongBufferLength)?;
    fill_column(buffer, number)
}

// Fills the buffer with the column of a number, as wide as the buffer. Refused: 13 a number that is wider.
#[tactic(auto, using(columns::proofs::Writings::at_end_column, columns::proofs::Writings::at_end_length), unfolding(columns::specs::Column::fits_column, columns::specs::Column::column_text))]
pub fn fill_column(buffer: &mut [u8], number: i64) -> Result<(), Refusal>
    ensures value { refusal_of result ≡ column_fill_refusal buffer.old number }
    ensures buffer_after { buffer.new ≡ column_fill_exit buffer.old number }
{
    refuse_if(!fits_column(buffer.len(), number), Refusal::NotAColumn)?;
    let at = write_number(buffer, number);
    fill_blanks(buffer, at);
    Ok(())
}

// Whether a column of a width can hold a number.
#[tactic(auto, unfolding(columns::specs::Column::fits_column))]
pub fn fits_column(width: usize, number: i64) -> bool
    ensures { result ≡ fits_column width number }
{
    text_length(number) <= width
}

// Makes the first bytes of the buffer blanks. A loop, since the library's `fill` writes the last byte apart from the others: 9 instructions more a column.
fn fill_blanks(buffer: &mut [u8], count: usize)
    requires { count ≤ length buffer.old }
    ensures { buffer.new ≡ replicate count blank ++ drop count buffer.old }
{
    for i in 0..count {
        buffer[i] = b' ';
    }
}

// Writes the number's text at the end of the buffer, and answers its place.
#[tactic(auto, using(columns::proofs::NumberText::number_text_negative, columns::proofs::NumberText::number_text_positive, columns::proofs::NumberText::number_text_digits_le, columns::proofs::Writings::at_end_more, columns::proofs::Writings::at_end_length))]
fn write_number(buffer: &mut [u8], number: i64) -> usize
    requires { length (number_text number) ≤ length buffer.old }
    ensures { AtEnd buffer.old (number_text number) result buffer.new }
{
    let digits = write_digits(buffer, number.unsigned_abs());
    if number < 0 {
        let at = digits - 1;
        buffer[at] = b'-';
        return at;
    }
    digits
}

// Writes the decimal text at the end of the buffer, and answers its place. The loops count no index: they go on while digits are left, of a long number two
// at a time, which halves its divisions.
fn write_digits(buffer: &mut [u8], number: u64) -> usize
    requires { length (decimal_text number) ≤ length buffer.old }
    ensures { AtEnd buffer.old (decimal_text number) result buffer.new }
{
    let mut rest = number;
    let mut at = buffer.len();
    while rest >= 10_000 {
        let pair = rest % 100;
        at -= 1;
        buffer[at] = digit_byte(pair % 10);
        at -= 1;
        buffer[at] = digit_byte(pair / 10);
        rest /= 100;
    }
    while rest >= 10 {
        at -= 1;
        buffer[at] = digit_byte(rest % 10);
        rest /= 10;
    }
    at -= 1;
    buffer[at] = digit_byte(rest);
    at
}

fn digit_byte(digit: u64) -> u8
    requires { digit < 10 }
    ensures { result ≡ digit_byte digit }
{
    b'0' + digit as u8
}

// The number of bytes of a number's text.
#[tactic(auto, using(columns::proofs::NumberText::number_text_negative, columns::proofs::NumberText::number_text_positive))]
fn text_length(number: i64) -> usize
    ensures { result ≡ length (number_text number) }
{
    let digits = digit_count(number.unsigned_abs());
    if number < 0 { digits + 1 } else { digits }
}

// The loop counts no index: it tries each power of ten in turn, without a division.
#[tactic(auto, using(columns::proofs::Writings::counted_one, columns::proofs::Writings::counted_more, columns::proofs::Writings::counted_all, columns::proofs::Writings::limit_fits))]
fn digit_count(number: u64) -> usize
    requires { number ≤ 2 ^ 63 }
    ensures { result ≡ length (decimal_text number) }
{
    let mut count = 1;
    let mut limit = 10;
    while number >= limit {
        limit *= 10;
        count += 1;
    }
    count
}
