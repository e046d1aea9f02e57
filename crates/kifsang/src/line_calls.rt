// The calls of `exported_lines` for C.
ghost use Rattle.std.specs.Prelude.{◌≡◌};
ghost use Rattle.spectrum.specs.Spectrum.{spectrum_refusal, spectrum_exit};
ghost use Rattle.spectral_lines.specs.Calls.{lines_from_refusal, lines_from_exit};
ghost use Rattle.rows.specs.Setups.{setup_of};
ghost use Rattle.exported_lines.specs.PanelCall.{panel_call_refusal, panel_call_lines_exit, panel_call_values_exit};

// Writes the 512 lines of the window that begins at `start`.
#[unsafe(no_mangle)]
pub extern "C" fn kifsang_spectrum(recording: &[i32], start: usize, lines: &mut [u64]) -> u32
    ensures value { result ≡ spectrum_refusal recording.now start lines.old }
    ensures lines_after { lines.new ≡ spectrum_exit recording.now start lines.old }
{
    exported_lines::kifsang_spectrum(recording, start, lines)
}

// Writes the lines from `first` on of the window that begins at `start`, as many as `lines` holds.
#[unsafe(no_mangle)]
pub extern "C" fn kifsang_lines_from(
    recording: &[i32],
    start: usize,
    first: usize,
    lines: &mut [u64],
) -> u32
    ensures value { result ≡ lines_from_refusal recording.now start first lines.old }
    ensures lines_after { lines.new ≡ lines_from_exit recording.now start first lines.old }
{
    exported_lines::kifsang_lines_from(recording, start, first, lines)
}

// Writes the 40 harmonic groups of the window that begins at `start`. The lines are 13 for the call's own use and hold 0 after it.
#[unsafe(no_mangle)]
pub extern "C" fn kifsang_panel_row(
    recording: &[i32],
    start: usize,
    system: u32,
    edition: u32,
    lines: &mut [u64],
    values: &mut [u32],
) -> u32
    ensures value { result ≡ panel_call_refusal (setup_of system edition) recording.now start lines.old values.old }
    ensures lines_after { lines.new ≡ panel_call_lines_exit (setup_of system edition) recording.now start lines.old values.old }
    ensures values_after { values.new ≡ panel_call_values_exit (setup_of system edition) recording.now start lines.old values.old }
{
    exported_lines::kifsang_panel_row(recording, start, system, edition, lines, values)
}
