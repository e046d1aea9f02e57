// The sum over a span of lines.
ghost use Rattle.std.specs.Prelude.{◌≡◌, ◌%◌, ◌^◌, sum, take, drop};
ghost use Rattle.spans.specs.Spans.{line_at, weights_in, weighted_sum};

use kinds::Span;

// The sum of so many lines from a first one on, as far as 64 bits hold it. Lines past the last count as 0.
#[tactic(auto, using(crate::proofs::Totals::total_steps))]
fn total(lines: &[u64], first: usize, count: usize) -> u64
    ensures { result ≡ sum (take count (drop first lines.now)) % 2 ^ 64 }
{
    let start = first.min(lines.len());
    let end = start + count.min(lines.len() - start);
    let mut sum: u64 = 0;
    for line in &lines[start..end] {
        sum = sum.wrapping_add(*line);
    }
    sum
}

// The sum of 2×w×L over the lines of a span, as far as 64 bits hold it: a line with weight 1 counts twice, and one with weight 1/2 once.
#[tactic(auto, using(crate::proofs::Totals::span_steps))]
pub fn span_sum(lines: &[u64], span: Span) -> u64
    ensures { result ≡ weighted_sum (line_at lines.now) (weights_in span) % 2 ^ 64 }
{
    // The lines from the span's first on.
    let lines = &lines[span.first.min(lines.len())..];
    if !span.half_ends {
        let all = total(lines, 0, span.count);
        return all.wrapping_add(all);
    }
    if span.count < 2 {
        return total(lines, 0, span.count);
    }
    let between = total(lines, 1, span.count - 2);
    let line_at = |place: usize| lines.get(place).copied().unwrap_or(0);
    let ends = line_at(0).wrapping_add(line_at(span.count - 1));
    ends.wrapping_add(between).wrapping_add(between)
}
