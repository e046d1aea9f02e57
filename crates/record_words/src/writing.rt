// The words of a record, part by part.
ghost use Rattle.std.specs.Prelude.{◌≡◌, ◌++◌, ◌+◌, ◌-◌, ◌*◌, ◌≤◌, length, take};
ghost use Rattle.exported_answers.specs.CallRefusals.{call_refusal_of};
ghost use Rattle.record_words.specs.Halves.{half_base, packed};
ghost use Rattle.record_words.specs.Words.{record_words, words_of, words_left};

use crate::{
    HALF_BASE, LATEST_PLACE, PEAK_PLACE, RECORD_WORDS, SMOOTHED_PLACE, SUM_PLACE, SYSTEM_PLACE,
};
use exported_answers::CallRefusal;
use records::Observation;
use refusals::NO_REFUSAL;

// A word of two halves.
fn paired(low: u32, high: u32) -> u64
    ensures { result ≡ low + half_base * high }
{
    u64::from(low) + HALF_BASE * u64::from(high)
}

// Packs numbers two in a word, into half as many words.
fn pack(values: &[u32], words: &mut [u64])
    requires { length values.now ≡ 2 * length words.old }
    ensures { words.new ≡ packed values.now }
{
    for k in 0..words.len() {
        words[k] = paired(values[2 * k], values[2 * k + 1]);
    }
}

// Puts a part from a place on, after the words that stand before it.
fn put_part(words: &mut [u64], place: usize, end: usize, part: &[u64])
    requires part_value { place + length part.now ≡ end }
    requires end_in_bounds { end ≤ length words.old }
    ensures { take end words.new ≡ take place words.old ++ part.now }
{
    words[place..end].copy_from_slice(part);
}

// Puts the values of the latest rows from a place on, after the words that stand before it.
fn put_halves(words: &mut [u64], place: usize, end: usize, values: &[u32])
    requires place_le_end { (place ≤ end) × (end ≤ length words.old) }
    requires values_len { length values.now ≡ 2 * (end - place) }
    ensures { take end words.new ≡ take place words.old ++ packed values.now }
{
    pack(values, &mut words[place..end]);
}

// Writes the words of a record.
fn write_record(observation: Observation, words: &mut [u64])
    requires { length words.old ≡ record_words }
    ensures { words.new ≡ words_of observation }
{
    let setup = observation.setup;
    let counts = [
        u64::from(setup.system),
        u64::from(setup.edition),
        u64::from(observation.windows),
    ];
    put_part(words, SYSTEM_PLACE, SMOOTHED_PLACE, &counts);
    put_part(words, SMOOTHED_PLACE, SUM_PLACE, &observation.smoothed);
    put_part(words, SUM_PLACE, PEAK_PLACE, &observation.sum);
    put_part(words, PEAK_PLACE, LATEST_PLACE, &observation.peak);
    put_halves(words, LATEST_PLACE, RECORD_WORDS, &observation.latest);
}

// Hands a record to the caller: its words, unless the call is refused, and the refusal's number.
#[tactic(auto, unfolding(crate::specs::Words::words_with))]
pub fn hand_over_record(answer: Result<Observation, CallRefusal>, words: &mut [u64]) -> u32
    ensures value { result ≡ call_refusal_of answer }
    ensures words_after { words.new ≡ words_left answer words.old }
{
    match answer {
        Ok(observation) => {
            if words.len() == RECORD_WORDS {
                write_record(observation, words);
            }
            NO_REFUSAL
        }
        Err(refusal) => refusal.number(),
    }
}
