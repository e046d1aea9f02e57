// The calls of `exported_observe` for C.
ghost use Rattle.std.specs.Prelude.{◌≡◌};
ghost use Rattle.rows.specs.Setups.{setup_of};
ghost use Rattle.exported_observe.specs.ObserveCall.{observe_call_refusal, observe_call_exit};

// Writes the record after windows back to back, each with the row of a kind.
#[unsafe(no_mangle)]
pub extern "C" fn kifsang_observe(
    recording: &[i32],
    start: usize,
    windows: usize,
    system: u32,
    edition: u32,
    kind: u32,
    words: &mut [u64],
) -> u32
    ensures value { result ≡ observe_call_refusal kind (setup_of system edition) recording.now start windows words.old }
    ensures words_after { words.new ≡ observe_call_exit kind (setup_of system edition) recording.now start windows words.old }
{
    exported_observe::kifsang_observe(recording, start, windows, system, edition, kind, words)
}
