// What the ways to work a window's spectral lines share: how many lines there are, and a line from its two whole sums.
#![tactic(auto)]

ghost use Rattle.std.specs.Prelude.{◌≡◌, ◌+◌, ◌^◌, ◌≤◌, ◌<◌, ltb, nat_abs};
ghost use Rattle.algebra.specs.Integers.{square};
ghost use Rattle.algebra.specs.Rounding.{nearestℤ};
ghost use Rattle.spectral_lines.specs.Line.{line_limit, sum_scale};

// Lines of a spectrum.
pub const LINE_COUNT: usize = 512;
// Line numbers are below it.
pub const LINE_LIMIT: usize = 1024;

// The sums are divided by 2 to this power, and by 2 once more.
const SUM_SHIFT: i64 = 28;

// Both whole sums of a line, before any division. Those of samples in range are below 2^58.
#[derive(Clone, Copy)]
pub struct Sums {
    pub cosine: i64,
    pub sine: i64,
    pub ghost cosine_bound: { nat_abs cosine < 2 ^ 58 },
    pub ghost sine_bound: { nat_abs sine < 2 ^ 58 },
}

impl Sums {
    // The line: the sum of the squares of A and B, to which the two are rounded.
    #[tactic(auto, using(crate::proofs::Bounds::roundings))]
    pub fn line(self) -> u64
        ensures { result ≡ square (nearestℤ self.cosine sum_scale) + square (nearestℤ self.sine sum_scale) }
    {
        line_of(rounded(self.cosine) as i32, rounded(self.sine) as i32)
    }
}

// So many lines from a first on reach past the last. A sum too large for 64 bits is cut to the largest number, which is past it too.
pub fn reach_past(first: usize, count: usize) -> bool
    ensures { result ≡ ltb line_limit (first + count) }
{
    LINE_LIMIT < first.saturating_add(count)
}

// A sum divided by 2^29, to the nearest, halves up. It is halved last, so that nothing is added to a sum that could be as large as any.
#[tactic(auto, using(crate::proofs::Shifts::shifts))]
pub fn rounded(sum: i64) -> i64
    ensures { result ≡ nearestℤ sum sum_scale }
{
    ((sum >> SUM_SHIFT) + 1) >> 1
}

// The line of A and B: the sum of their squares, which 64 bits hold.
pub fn line_of(a: i32, b: i32) -> u64
    ensures { result ≡ square a + square b }
{
    squared(a) + squared(b)
}

#[tactic(auto, unfolding(algebra::specs::Integers::square))]
fn squared(a: i32) -> u64
    ensures value { result ≡ square a }
    ensures bound { result ≤ 2 ^ 62 }
{
    let size = u64::from(a.unsigned_abs());
    size * size
}
