// The spectral lines of a window, for callers in other languages.
ghost use Rattle.std.specs.Prelude.{◌≡◌};
ghost use Rattle.spectrum.specs.Spectrum.{spectrum_refusal, spectrum_exit};
ghost use Rattle.spectral_lines.specs.Calls.{lines_from_refusal, lines_from_exit};

use exported_answers::number_answered;

// Writes the 512 lines of the window that begins at `start`.
pub fn kifsang_spectrum(recording: &[i32], start: usize, lines: &mut [u64]) -> u32
    ensures value { result ≡ spectrum_refusal recording.now start lines.old }
    ensures lines_after { lines.new ≡ spectrum_exit recording.now start lines.old }
{
    number_answered(spectrum::spectrum(recording, start, lines))
}

// Writes the lines from `first` on of the window that begins at `start`, as many as `lines` holds.
pub fn kifsang_lines_from(recording: &[i32], start: usize, first: usize, lines: &mut [u64]) -> u32
    ensures value { result ≡ lines_from_refusal recording.now start first lines.old }
    ensures lines_after { lines.new ≡ lines_from_exit recording.now start first lines.old }
{
    number_answered(spectrum::lines_from(recording, start, first, lines))
}
