// The lines of a text: a column of 8 bytes and a newline each.
ghost use Rattle.std.specs.Prelude.{◌≡◌, ◌≤◌, length};
ghost use Rattle.refusals.specs.Answers.{refusal_of};
ghost use Rattle.columns.specs.Calls.{reading_of, number_answer_of};
ghost use Rattle.recordings.specs.TextLines.{text_line_count, text_line_number};
ghost use Rattle.recordings.specs.Steps.{sample_on, ReadInto};

use crate::LINE_BYTES;
use column_reading::read_column;
use refusals::{Refusal, refuse_if};
use windows::out_of_range;

// The number on a line, or 13.
#[tactic(auto, using(crate::proofs::NumberOnLine::text_line_number_ended, crate::proofs::NumberOnLine::text_line_number_other), unfolding(crate::specs::TextLines::text_line_number))]
pub(crate) fn number_on(line: &[u8]) -> Result<i64, Refusal>
    ensures { number_answer_of result ≡ reading_of (text_line_number line.now) }
{
    match line {
        [column @ .., b'\n'] => read_column(column),
        _ => Err(Refusal::NotAColumn),
    }
}

// The sample on a line, or 13, or 3.
#[tactic(auto, unfolding(crate::specs::Steps::sample_on, crate::specs::Blocks::sample_refusal, crate::specs::TextLines::number_or0, windows::specs::Window::out_of_range))]
fn sample_on(line: &[u8]) -> Result<i32, Refusal>
    ensures { number_answer_of result ≡ sample_on line.now }
{
    let number = number_on(line)?;
    refuse_if(out_of_range(number), Refusal::SampleOutOfRange)?;
    Ok(number as i32)
}

// Reads the samples on the lines of a text to the front of a list, up to the first line that is refused: 13, or 3.
pub(crate) fn read_samples(text: &[u8], samples: &mut [i32]) -> Result<(), Refusal>
    requires { text_line_count text.now ≤ length samples.old }
    ensures { ReadInto text.now samples.old (refusal_of result) samples.new }
{
    for (i, line) in text.chunks(LINE_BYTES).enumerate() {
        samples[i] = sample_on(line)?;
    }
    Ok(())
}
