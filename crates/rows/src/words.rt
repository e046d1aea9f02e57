// Values that a caller lends as words, as the array of the 40 orders.
ghost use Rattle.std.specs.Prelude.{◌≡◌};
ghost use Rattle.rows.specs.Rows.{first_values};

use crate::ORDER_COUNT;
use lists::put_numbers;

// The first 40 words, as the values of the orders 1..40. Words that are missing count as 0.
pub fn first_values(words: &[u32]) -> [u32; ORDER_COUNT]
    ensures { result ≡ first_values words.now }
{
    let mut values = [0; ORDER_COUNT];
    put_numbers(words, &mut values);
    values
}
