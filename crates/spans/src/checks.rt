// The checks of lines that a caller lends.
ghost use Rattle.std.specs.Prelude.{◌≡◌};
ghost use Rattle.refusals.specs.Answers.{first_fault, refusal_of};
ghost use Rattle.spans.specs.Checks.{line_checks};

use lists::any_above;
use refusals::{Refusal, refuse_if};

// The largest line that is taken.
const LARGEST_LINE: u64 = 1 << 59;

// The checks of lines that are to be so many.
pub fn check_lines(lines: &[u64], count: usize) -> Result<(), Refusal>
    ensures { refusal_of result ≡ first_fault (line_checks count lines.now) }
{
    refuse_if(lines.len() != count, Refusal::WrongLineCount)?;
    refuse_if(any_above(lines, LARGEST_LINE), Refusal::LineTooLarge)
}
