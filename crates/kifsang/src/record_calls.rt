// The calls of `exported_records` for C.
ghost use Rattle.std.specs.Prelude.{◌≡◌};
ghost use Rattle.rows.specs.Setups.{setup_of};
ghost use Rattle.exported_records.specs.RecordCalls.{fresh_call_refusal, fresh_call_exit, add_row_call_refusal, add_row_call_exit};

// Writes a record of a system and an edition with zeros.
#[unsafe(no_mangle)]
pub extern "C" fn kifsang_fresh_record(system: u32, edition: u32, words: &mut [u64]) -> u32
    ensures value { result ≡ fresh_call_refusal (setup_of system edition) words.old }
    ensures words_after { words.new ≡ fresh_call_exit (setup_of system edition) words.old }
{
    exported_records::kifsang_fresh_record(system, edition, words)
}

// Adds a row to a record.
#[unsafe(no_mangle)]
pub extern "C" fn kifsang_add_row(
    words: &mut [u64],
    system: u32,
    edition: u32,
    values: &[u32],
) -> u32
    ensures value { result ≡ add_row_call_refusal words.old (setup_of system edition) values.now }
    ensures words_after { words.new ≡ add_row_call_exit words.old (setup_of system edition) values.now }
{
    exported_records::kifsang_add_row(words, system, edition, values)
}
