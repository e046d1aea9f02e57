// One line of a folded window: the sums over the places where the line's foldings end, rounded and squared.
// Samples in range keep every sum below 2^58, so 64 bits hold it whole, and nothing is rounded before the division by 2^29.
ghost use Rattle.std.specs.Prelude.{cond, ◌≡◌, suc, ◌+◌, ◌*◌, ◌%◌, ◌^◌, ◌<◌, eqb, nat_abs, neg_ℤ, ◌+ℤ◌, ◌*ℤ◌};
ghost use Rattle.sine.specs.Turn.{turn, quarter_turn};
ghost use Rattle.sine.specs.Wave.{table_sine, table_cosine, wave_list};
ghost use Rattle.spectral_lines.specs.Line.{line_limit};
ghost use Rattle.spectral_lines.specs.Folding.{held_by, place_sum, cosine_of};
ghost use Rattle.spectrum.specs.LinePlaces.{EndsAt, sine_ahead};
ghost use Rattle.spectrum.specs.Prepared.{SumsFit, SumOfFolded, LineOfFolded};

use sine::{QUARTER_TURN, TURN};
use spectral_lines::Sums;
use windows::{WINDOW_LENGTH, product};

// The first halving is at a quarter of the window.
const FIRST_HALF: usize = WINDOW_LENGTH / 4;

// The half length of the halving at which line k ends: it times k is an odd number of quarter turns.
#[tactic(auto, using(crate::proofs::EndingHalf::ending_half))]
fn ending_half(k: usize) -> usize
    requires k_nonzero { 0 < k }
    requires k_lt_line_limit { k < line_limit }
    ensures { EndsAt k result }
{
    FIRST_HALF >> k.trailing_zeros()
}

// The sine's sum with its sign, by the angle at the line's last halving: a quarter turn, or three of them.
fn signed_sine(sum: i64, angle: usize) -> i64
    requires { nat_abs sum < 2 ^ 58 }
    ensures value { result ≡ cond (eqb (angle % turn) quarter_turn) sum (neg_ℤ sum) }
    ensures bound { nat_abs result < 2 ^ 58 }
{
    if sine::turn_index(angle) == QUARTER_TURN {
        sum
    } else {
        -sum
    }
}

// A window in range, folded, and one turn of the table's sine.
#[derive(Drop)]
pub(crate) struct FoldedWindow<'a> {
    pub(crate) folded: &'a [i32; WINDOW_LENGTH],
    pub(crate) wave: &'a [i32; TURN],
    ghost small: { SumsFit (held_by folded.now) },
    ghost one_turn: { wave.now ≡ wave_list },
}

impl FoldedWindow<'_> {
    // The sums over the places of a line that ends at half. One cosine serves both: at a place of the cosine it is, but for a sign, the sine at the place of the sine that lies ahead.
    fn sums_over(&self, k: usize, half: usize) -> Sums
        requires k_lt_line_limit { k < line_limit }
        requires ends_at { EndsAt k half }
        ensures cosine_value { result.cosine ≡ place_sum (suc half) half (held_by self.now.folded.now) (cosine_of k) }
        ensures sine_value { result.sine ≡ place_sum (suc half) half (λ p. held_by self.now.folded.now (p + sine_ahead half)) (cosine_of k) }
    {
        let first = half + 1;
        let sine_first = first + (WINDOW_LENGTH - 3 * half);
        // The compiler unrolls the loop where it reads two slices in step.
        let folded = self.folded;
        let cosine_part = &folded[first..first + half];
        let sine_part = &folded[sine_first..sine_first + half];
        let mut cosine: i64 = 0;
        let mut sine: i64 = 0;
        for i in 0..half {
            // The cosine is a quarter turn ahead of the sine.
            let factor = self.wave[sine::turn_index((first + i) * k + QUARTER_TURN)];
            cosine += product(cosine_part[i], factor);
            sine += product(sine_part[i], factor);
        }
        Sums { cosine, sine }
    }

    // The cosine's sum of line 0, which never ends: over the two places that are left, where the cosine is that of 0.
    fn line_0_sum(&self) -> i64
        ensures value { result ≡ (held_by self.now.folded.now 0 +ℤ held_by self.now.folded.now 1) *ℤ table_cosine 0 }
        ensures bound { nat_abs result < 2 ^ 58 }
    {
        product(self.folded[0] + self.folded[1], self.wave[QUARTER_TURN])
    }

    // Both sums of line k. Line 0 has no sine.
    fn sums(&self, k: usize) -> Sums
        requires { k < line_limit }
        ensures cosine_value { SumOfFolded table_cosine self.now.folded.now k result.cosine }
        ensures sine_value { SumOfFolded table_sine self.now.folded.now k result.sine }
    {
        if k == 0 {
            return Sums {
                cosine: self.line_0_sum(),
                sine: 0,
            };
        }
        let half = ending_half(k);
        let sums = self.sums_over(k, half);
        Sums {
            cosine: sums.cosine,
            sine: signed_sine(sums.sine, half * k),
        }
    }

    // Line k of the window that was folded.
    #[tactic(auto, unfolding(spectral_lines::specs::Line::line_of, spectral_lines::specs::Line::rounded_sum))]
    pub(crate) fn line(&self, k: usize) -> u64
        requires { k < line_limit }
        ensures { LineOfFolded self.now.folded.now k result }
    {
        self.sums(k).line()
    }
}
