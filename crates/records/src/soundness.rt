// Which records are sound, and the check of it. A record is lent, so that no test copies it.
ghost use Rattle.std.specs.Prelude.{[], ◌≡◌, ◌*◌, ltb, drop};
ghost use Rattle.std.specs.List.{list_any};
ghost use Rattle.refusals.specs.Answers.{first_fault, refusal_of};
ghost use Rattle.rows.specs.Orders.{order_count};
ghost use Rattle.records.specs.Soundness.{all_zero, is_sound, sound_first};

use crate::Observation;
use lists::any_above;
use refusals::{Refusal, refuse_if};
use rows::{LARGEST_VALUE, ORDER_COUNT};

// At most 45,000 windows, 2.5 hours.
pub const MOST_WINDOWS: u32 = 45000;

impl Observation {
    // All smoothed values, sums and peaks are 0.
    #[tactic(auto, unfolding(crate::specs::Soundness::all_zero, crate::specs::Soundness::none_above))]
    fn is_all_zero(&self) -> bool
        ensures { result ≡ all_zero self.now.smoothed self.now.sum self.now.peak }
    {
        !any_above(&self.smoothed, 0) & !any_above(&self.sum, 0) & !any_above(&self.peak, 0)
    }

    // Some value of the latest rows is not 0 where no row has come yet.
    fn has_value_to_come(&self) -> bool
        ensures { result ≡ list_any (ltb 0) (drop (self.now.windows * order_count) self.now.latest) }
    {
        let come = self.windows as usize * ORDER_COUNT;
        self.latest.iter().skip(come).any(|value| 0 < *value)
    }

    // Its setup is known, no number of it is too large for its count of windows, no window means zeros, and
    // the latest rows hold zeros where none has come yet.
    #[tactic(auto, unfolding(crate::specs::Soundness::is_sound, crate::specs::Soundness::none_above))]
    fn is_sound(&self) -> bool
        ensures { result ≡ is_sound self.now }
    {
        self.setup.is_known()
            & (self.windows <= MOST_WINDOWS)
            & !any_above(&self.sum, u64::from(self.windows) * LARGEST_VALUE)
            & !any_above(&self.peak, LARGEST_VALUE)
            & !any_above(&self.smoothed, LARGEST_VALUE)
            & ((self.windows != 0) | self.is_all_zero())
            & !self.has_value_to_come()
    }

    // The check of a record: 7 record not sound.
    pub fn check(&self) -> Result<(), Refusal>
        ensures { refusal_of result ≡ first_fault (sound_first self.now []) }
    {
        refuse_if(!self.is_sound(), Refusal::UnsoundRecord)
    }
}
