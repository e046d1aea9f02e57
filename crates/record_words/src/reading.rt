// The record that some words hold.
ghost use Rattle.std.specs.Prelude.{◌≡◌, ◌<◌, min, length, get_or};
ghost use Rattle.rows.specs.Rows.{largest_value};
ghost use Rattle.latest_rows.specs.Latest.{values_kept};
ghost use Rattle.lists.specs.LentWords.{words_from};
ghost use Rattle.record_words.specs.Halves.{unpacked};
ghost use Rattle.record_words.specs.Words.{latest_words, record_words, record_read};

use crate::{
    EDITION_PLACE, HALF_BASE, LATEST_PLACE, LATEST_WORDS, PEAK_PLACE, SMOOTHED_PLACE, SUM_PLACE,
    SYSTEM_PLACE, WINDOWS_PLACE,
};
use latest_rows::VALUES_KEPT;
use records::Observation;
use rows::{LARGEST_VALUE, ORDER_COUNT, Setup};

// The word at a place, 0 past the last: `lists::number_at` at 64 bits; one function for both would have to be handed the 0.
fn word_at(words: &[u64], place: usize) -> u64
    ensures { result ≡ get_or words.now place 0 }
{
    words.get(place).copied().unwrap_or(0)
}

// The word at a place as a number of 32 bits, the largest of them where it has more.
fn count_at(words: &[u64], place: usize) -> u32
    ensures { result ≡ min (get_or words.now place 0) largest_value }
{
    word_at(words, place).min(LARGEST_VALUE) as u32
}

// Fills the values of the latest rows with the halves of the words from a place on.
fn fill_halves(words: &[u64], place: usize, values: &mut [u32; VALUES_KEPT])
    requires place_lt_record_words { place < record_words }
    requires values_len { length values.old ≡ values_kept }
    ensures { values.new ≡ unpacked (words_from place latest_words words.now) }
{
    for k in 0..LATEST_WORDS {
        let word = word_at(words, place + k);
        values[2 * k] = (word % HALF_BASE) as u32;
        values[2 * k + 1] = (word / HALF_BASE) as u32;
    }
}

// Makes a record the one that some words hold. Words that are missing count as 0. It is filled where it stands, so that no second copy of it
// stands on the stack.
pub fn fill_record(words: &[u64], observation: &mut Observation)
    ensures { observation.new ≡ record_read words.now }
{
    observation.setup = Setup {
        system: count_at(words, SYSTEM_PLACE),
        edition: count_at(words, EDITION_PLACE),
    };
    observation.windows = count_at(words, WINDOWS_PLACE);
    observation.smoothed = [0; ORDER_COUNT];
    observation.sum = [0; ORDER_COUNT];
    observation.peak = [0; ORDER_COUNT];
    for i in 0..ORDER_COUNT {
        observation.smoothed[i] = word_at(words, SMOOTHED_PLACE + i);
        observation.sum[i] = word_at(words, SUM_PLACE + i);
        observation.peak[i] = word_at(words, PEAK_PLACE + i);
    }
    fill_halves(words, LATEST_PLACE, &mut observation.latest);
}

// The record that some words hold. Words that are missing count as 0.
pub fn read_record(words: &[u64]) -> Observation
    ensures { result ≡ record_read words.now }
{
    let mut read = Observation {
        setup: Setup {
            system: 0,
            edition: 0,
        },
        windows: 0,
        smoothed: [0; ORDER_COUNT],
        sum: [0; ORDER_COUNT],
        peak: [0; ORDER_COUNT],
        latest: [0; VALUES_KEPT],
    };
    fill_record(words, &mut read);
    read
}
