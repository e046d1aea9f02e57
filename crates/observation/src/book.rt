// The reported book of one order, and its step at an accepted value.
ghost use Rattle.std.specs.Prelude.{◌≡◌, ◌≤◌, ◌<◌, ◌*◌};
ghost use Rattle.books.specs.Book.{smoothed_next, book_step};
ghost use Rattle.books.specs.Smoothing.{reported};
ghost use Rattle.records.specs.Soundness.{most_windows};
ghost use Rattle.rows.specs.Rows.{largest_value};
ghost use Rattle.observation.specs.OrderBook.{book_of};

use books::smoothed_value;

// The reported book of one order.
#[derive(Clone, Copy)]
pub(crate) struct OrderBook {
    pub(crate) count: u32,
    pub(crate) smoothed: u64,
    pub(crate) sum: u64,
    pub(crate) peak: u64,
}

impl OrderBook {
    // The first value becomes the smoothed one, a later value is smoothed with the old.
    #[tactic(auto, unfolding(books::specs::Book::smoothed_next))]
    fn next_smoothed(self, new: u32) -> u32
        requires { self.smoothed ≤ largest_value }
        ensures { result ≡ smoothed_next reported (book_of self) new }
    {
        if self.count == 0 {
            new
        } else {
            smoothed_value(new, self.smoothed as u32)
        }
    }

    // The book with one value more.
    #[tactic(auto, unfolding(books::specs::Book::book_step))]
    pub(crate) fn step(self, new: u32) -> OrderBook
        requires room { self.count < most_windows }
        requires smoothed_in { self.smoothed ≤ largest_value }
        requires sum_in { self.sum ≤ most_windows * largest_value }
        ensures { book_of result ≡ book_step reported (book_of self) new }
    {
        let smoothed = u64::from(self.next_smoothed(new));
        OrderBook {
            count: self.count + 1,
            smoothed,
            sum: self.sum + smoothed,
            peak: self.peak.max(smoothed),
        }
    }
}
