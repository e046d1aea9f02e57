// Lent lists of whole numbers: an element with its place, a copy of any length, and a test over all.
#![tactic(auto)]

ghost use Rattle.std.specs.Prelude.{◌≡◌, ltb, length, get_or};
ghost use Rattle.std.specs.List.{list_any};
ghost use Rattle.lists.specs.LentWords.{words_from};

// The number at a place of the list, 0 past its end.
pub fn number_at(numbers: &[u32], place: usize) -> u32
    ensures { result ≡ get_or numbers.now place 0 }
{
    numbers.get(place).copied().unwrap_or(0)
}

// Writes the numbers to another list, 0 past the last.
pub fn put_numbers(numbers: &[u32], to: &mut [u32])
    ensures { to.new ≡ words_from 0 (length to.old) numbers.now }
{
    for i in 0..to.len() {
        to[i] = number_at(numbers, i);
    }
}

// Whether some number of the list is above the bound.
pub fn any_above(numbers: &[u64], bound: u64) -> bool
    ensures { result ≡ list_any (ltb bound) numbers.now }
{
    numbers.iter().any(|number| bound < *number)
}
