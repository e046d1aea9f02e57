// Number columns, for callers in other languages.
ghost use Rattle.std.specs.Prelude.{◌≡◌, IfOk};
ghost use Rattle.columns.specs.Calls.{column_read_answer, column_write_refusal, column_write_exit};
ghost use Rattle.exported_answers.specs.CallRefusals.{call_refusal_of};
ghost use Rattle.exported_text.specs.ColumnCalls.{column_call_exit};

use exported_answers::{CallRefusal, hand_over, number_answered};

// The number of a column.
fn read_column(text: &[u8]) -> Result<i64, CallRefusal>
    ensures refusal { call_refusal_of result ≡ (column_read_answer text.now).refusal }
    ensures accepted { IfOk result (λ number. number ≡ (column_read_answer text.now).value) }
{
    Ok(column_reading::read_column(text)?)
}

// Writes the number of a column of 8 bytes.
#[tactic(auto, using(exported_answers::proofs::Handed::handed_over), unfolding(crate::specs::ColumnCalls::column_call_exit))]
pub fn kifsang_read_column(text: &[u8], number: &mut i64) -> u32
    ensures value { result ≡ (column_read_answer text.now).refusal }
    ensures number_after { number.new ≡ column_call_exit text.now number.old }
{
    hand_over(read_column(text), number)
}

// Writes the column of a number into 8 bytes.
pub fn kifsang_write_column(buffer: &mut [u8], number: i64) -> u32
    ensures value { result ≡ column_write_refusal buffer.old number }
    ensures buffer_after { buffer.new ≡ column_write_exit buffer.old number }
{
    number_answered(column_writing::write_column(buffer, number))
}
