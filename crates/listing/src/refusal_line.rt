// The line that is written in place of a listing: a word, the refusal's number and a newline.
ghost use Rattle.std.specs.Prelude.{◌≡◌};
ghost use Rattle.refusals.specs.Answers.{refusal_of};
ghost use Rattle.listing.specs.RefusalLine.{refusal_line_refusal, refusal_line_exit};

use crate::REFUSAL_LINE_LENGTH;
use column_writing::fill_column;
use refusals::{Refusal, refuse_if};

const WORD: &[u8] = b"refused";

// The width of the refusal's number.
const REFUSAL_WIDTH: usize = 3;

// Fills a buffer of 11 bytes with the line for a refusal. Refused itself: 14 a buffer of another length, 13 a number of more than 3 digits.
#[tactic(auto, unfolding(crate::specs::RefusalLine::refusal_line, columns::specs::Text::bytes_of))]
pub fn fill_refusal_line(refusal: u32, buffer: &mut [u8]) -> Result<(), Refusal>
    ensures value { refusal_of result ≡ refusal_line_refusal buffer.old refusal }
    ensures buffer_after { buffer.new ≡ refusal_line_exit buffer.old refusal }
{
    refuse_if(
        buffer.len() != REFUSAL_LINE_LENGTH,
        Refusal::WrongBufferLength,
    )?;
    let (word, rest) = buffer.split_at_mut(WORD.len());
    let (number, end) = rest.split_at_mut(REFUSAL_WIDTH);
    fill_column(number, i64::from(refusal))?;
    word.copy_from_slice(WORD);
    end.copy_from_slice(b"\n");
    Ok(())
}
