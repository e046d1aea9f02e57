// One line of a window by itself, with no list of folded numbers (document 02, card 6), for callers that have little scratch.
// A step takes the pairs j and 1024 − j, four samples, at whose places the wave is the same but for its sign.
ghost use Rattle.std.specs.Prelude.{ℕ, not, ◌≡◌, ◌+◌, ◌-◌, ◌*◌, ◌^◌, ◌≤◌, ◌<◌, length, nat_abs, ◌*ℤ◌};
ghost use Rattle.algebra.specs.Sums.{sum_to};
ghost use Rattle.sine.specs.Turn.{quarter_turn};
ghost use Rattle.sine.specs.Wave.{quarter_list, table_sine, table_cosine};
ghost use Rattle.windows.specs.Window.{window_length, largest_sample};
ghost use Rattle.spectral_lines.specs.Line.{line_limit, line_sum, line_of};
ghost use Rattle.spectral_lines.specs.Folding.{held_by};
ghost use Rattle.spectral_lines.specs.Pairs.{pair_sum, pair_difference};
ghost use Rattle.single_lines.specs.Quarter.{across, is_odd, cosine_across, sine_across};

use sine::{HALF_TURN, QUARTER_TURN};
use spectral_lines::Sums;
use windows::{WINDOW_LENGTH, product};

// The line has an odd number.
fn is_odd(k: usize) -> bool
    ensures { result ≡ is_odd k }
{
    k % 2 == 1
}

// The samples of a pair, added and taken from each other.
#[derive(Drop)]
struct Pair {
    sum: i32,
    difference: i32,
    ghost sum_bound: { nat_abs sum ≤ 2 * largest_sample },
    ghost difference_bound: { nat_abs difference ≤ 2 * largest_sample },
}

// The numbers that the waves at one place are multiplied by.
#[derive(Clone, Copy)]
struct Numbers {
    cosine: i32,
    sine: i32,
}

// A window in range, and the quarter wave of the table.
#[derive(Drop)]
pub(crate) struct Window<'a> {
    pub(crate) samples: &'a [i32],
    pub(crate) quarter: &'a [u32; QUARTER_TURN + 1],
    ghost whole: { length samples.now ≡ window_length },
    ghost bounded: { (j : ℕ) → nat_abs (held_by samples.now j) ≤ largest_sample },
    ghost quarter_value: { quarter.now ≡ quarter_list },
}

impl Window<'_> {
    // The samples j and 2048 − j.
    fn pair_at(&self, j: usize) -> Pair
        requires le_j { 1 ≤ j }
        requires j_lt_window_length { j < window_length }
        ensures sum_value { result.sum ≡ pair_sum self.now.samples.now j }
        ensures difference_value { result.difference ≡ pair_difference self.now.samples.now j }
    {
        let near = self.samples[j];
        let far = self.samples[WINDOW_LENGTH - j];
        Pair {
            sum: near + far,
            difference: near - far,
        }
    }

    // What a line, odd or even, takes at j: of the pairs j and 1024 − j. Both are written out, so that it shows which is taken from which.
    #[tactic(auto, using(crate::proofs::QuarterSums::crossed))]
    fn numbers_at(&self, odd: bool, j: usize) -> Numbers
        requires le_j { 1 ≤ j }
        requires j_lt_quarter_turn { j < quarter_turn }
        ensures cosine_value { result.cosine ≡ across odd (pair_sum self.now.samples.now j) (pair_sum self.now.samples.now (1024 - j)) }
        ensures sine_value { result.sine ≡ across (not odd) (pair_difference self.now.samples.now j) (pair_difference self.now.samples.now (1024 - j)) }
    {
        let near = self.pair_at(j);
        let far = self.pair_at(HALF_TURN - j);
        if odd {
            return Numbers {
                cosine: near.sum - far.sum,
                sine: near.difference + far.difference,
            };
        }
        Numbers {
            cosine: near.sum + far.sum,
            sine: near.difference - far.difference,
        }
    }

    // What the cosine of 0 is multiplied by: the samples 0 and 1024, which have no partner.
    fn ends(&self, odd: bool) -> i32
        ensures { result ≡ across odd (held_by self.now.samples.now 0) (held_by self.now.samples.now 1024) }
    {
        let first = self.samples[0];
        let middle = self.samples[HALF_TURN];
        if odd { first - middle } else { first + middle }
    }

    // The table's sine at an index.
    fn sine_at(&self, index: usize) -> i32
        ensures { result ≡ table_sine index }
    {
        sine::wave_at(self.quarter, index) as i32
    }

    // The table's cosine at an index, a quarter turn ahead of the sine.
    #[tactic(auto, unfolding(sine::specs::Wave::table_cosine))]
    fn cosine_at(&self, index: usize) -> i32
        requires { index < 2 ^ 32 }
        ensures { result ≡ table_cosine index }
    {
        self.sine_at(index + QUARTER_TURN)
    }

    // The sums over j = 1..511.
    fn sums_across(&self, k: usize) -> Sums
        requires { k < line_limit }
        ensures cosine_value { result.cosine ≡ sum_to 511 (λ i. cosine_across self.now.samples.now k (1 + i) *ℤ table_cosine ((1 + i) * k)) }
        ensures sine_value { result.sine ≡ sum_to 511 (λ i. sine_across self.now.samples.now k (1 + i) *ℤ table_sine ((1 + i) * k)) }
    {
        let odd = is_odd(k);
        let mut cosine: i64 = 0;
        let mut sine: i64 = 0;
        for j in 1..QUARTER_TURN {
            let numbers = self.numbers_at(odd, j);
            cosine += product(numbers.cosine, self.cosine_at(j * k));
            sine += product(numbers.sine, self.sine_at(j * k));
        }
        Sums { cosine, sine }
    }

    // Both sums of line k: those, and the samples that are left over, 0 with 1024 and 512 with 1536.
    fn sums(&self, k: usize) -> Sums
        requires { k < line_limit }
        ensures cosine_value { result.cosine ≡ line_sum table_cosine self.now.samples.now k }
        ensures sine_value { result.sine ≡ line_sum table_sine self.now.samples.now k }
    {
        let sums = self.sums_across(k);
        let ends = self.ends(is_odd(k));
        let middle = self.pair_at(QUARTER_TURN);
        Sums {
            cosine: sums.cosine
                + product(ends, self.cosine_at(0))
                + product(middle.sum, self.cosine_at(QUARTER_TURN * k)),
            sine: sums.sine + product(middle.difference, self.sine_at(QUARTER_TURN * k)),
        }
    }

    // Line k of the window.
    #[tactic(auto, unfolding(spectral_lines::specs::Line::line_of, spectral_lines::specs::Line::rounded_sum))]
    pub(crate) fn line(&self, k: usize) -> u64
        requires { k < line_limit }
        ensures { result ≡ line_of self.now.samples.now k }
    {
        self.sums(k).line()
    }
}
