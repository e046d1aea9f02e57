// The calls of `exported_text` for C.
ghost use Rattle.std.specs.Prelude.{◌≡◌};
ghost use Rattle.columns.specs.Calls.{column_read_answer, column_write_refusal, column_write_exit};
ghost use Rattle.exported_text.specs.ColumnCalls.{column_call_exit};
ghost use Rattle.exported_text.specs.ListingCall.{listing_call_refusal, listing_call_exit, listing_call_count_exit};

// Writes the number of a column of 8 bytes.
#[unsafe(no_mangle)]
pub extern "C" fn kifsang_read_column(text: &[u8], number: &mut i64) -> u32
    ensures value { result ≡ (column_read_answer text.now).refusal }
    ensures number_after { number.new ≡ column_call_exit text.now number.old }
{
    exported_text::kifsang_read_column(text, number)
}

// Writes the column of a number into 8 bytes.
#[unsafe(no_mangle)]
pub extern "C" fn kifsang_write_column(buffer: &mut [u8], number: i64) -> u32
    ensures value { result ≡ column_write_refusal buffer.old number }
    ensures buffer_after { buffer.new ≡ column_write_exit buffer.old number }
{
    exported_text::kifsang_write_column(buffer, number)
}

// Writes the listing of the 40 orders' values and the count of its bytes.
#[unsafe(no_mangle)]
pub extern "C" fn kifsang_fill_listing(
    group: &[u32],
    subgroup: &[u32],
    smoothed: &[u32],
    buffer: &mut [u8],
    written: &mut u64,
) -> u32
    ensures value { result ≡ listing_call_refusal group.now subgroup.now smoothed.now buffer.old }
    ensures buffer_after { buffer.new ≡ listing_call_exit group.now subgroup.now smoothed.now buffer.old }
    ensures written_after { written.new ≡ listing_call_count_exit group.now subgroup.now smoothed.now buffer.old written.old }
{
    exported_text::kifsang_fill_listing(group, subgroup, smoothed, buffer, written)
}
