// What harmlist writes at the end of a reading: the listing, or only the line for a refusal. That it is document 01's output of the whole input that was
// read is stated in specs/Follows.antt and proved in proofs/.
#![tactic(auto)]

ghost use Rattle.std.specs.Prelude.{true, [], ◌∷◌, ◌≡◌, ◌<◌, eqb, length, MatchOption};
ghost use Rattle.refusals.specs.Numbers.{no_refusal, no_window};
ghost use Rattle.refusals.specs.Answers.{first_fault, refusal_of, answer, answer_of};
ghost use Rattle.listing.specs.Listing.{listing_text, listing_refusal, listing_exit};
ghost use Rattle.records.specs.Soundness.{none_above, is_sound, sound_first};
ghost use Rattle.rows.specs.Rows.{largest_value};
ghost use Rattle.harmlist_output.specs.Ending.{finish_refusal, output_of, output_exit};

use listing::{LISTING_ROOM, REFUSAL_LINE_LENGTH, fill_listing, fill_refusal_line};
use recordings::Reading;
use records::Observation;
use refusals::{NO_REFUSAL, Refusal, refuse_if};
use rows::ORDER_COUNT;

// No refusal of document 01 has a larger number.
const LARGEST_REFUSAL: u32 = Refusal::WrongBufferLength as u32;

// Writes what harmlist writes for the input that was read, and answers the count of its bytes; the bytes after them stay. Refused: 14 a buffer shorter
// than 1,640 bytes.
#[tactic(auto, using(crate::proofs::EndingLaws::finish_refusal_le, crate::proofs::EndingLaws::finish_refusal_sound, listing::proofs::RefusalLine::refusal_line_long, listing::proofs::RefusalLine::refusal_line_exit_accepted), unfolding(listing::specs::Listing::listing_refusal, listing::specs::Listing::listing_exit, crate::specs::Ending::output_of, crate::specs::Ending::output_exit))]
pub fn finish(reading: Reading, output: &mut [u8]) -> Result<usize, Refusal>
    ensures value { answer_of result ≡ answer (listing_refusal output.old) (length (output_of reading)) }
    ensures output_after { output.new ≡ output_exit reading output.old }
{
    refuse_if(output.len() < LISTING_ROOM, Refusal::WrongBufferLength)?;
    match end_refusal(&reading) {
        None => put_listing(&reading, output),
        Some(refusal) => {
            fill_refusal_line(refusal, &mut output[..REFUSAL_LINE_LENGTH]).unwrap();
            Ok(REFUSAL_LINE_LENGTH)
        }
    }
}

// The number of the refusal at the end, if there is one: that of the reading, 7 for a reading that no call gave, 10 where no window came.
#[tactic(auto, unfolding(crate::specs::Ending::finish_refusal))]
fn end_refusal(reading: &Reading) -> Option<u32>
    ensures { MatchOption result (finish_refusal reading.now ≡ no_refusal) (λ n. (n ≡ finish_refusal reading.now) × (0 < n)) }
{
    if LARGEST_REFUSAL < reading.refusal {
        return Some(Refusal::UnsoundRecord.number());
    }
    if reading.refusal != NO_REFUSAL {
        return Some(reading.refusal);
    }
    check_record(&reading.observation)
        .err()
        .map(Refusal::number)
}

// The checks of the record at the end: 7 record not sound, 10 no window yet.
fn check_record(observation: &Observation) -> Result<(), Refusal>
    ensures { refusal_of result ≡ first_fault (sound_first observation.now ((eqb observation.now.windows 0, no_window) ∷ [])) }
{
    observation.check()?;
    refuse_if(observation.windows == 0, Refusal::NoWindow)
}

// Writes the listing of a reading whose record is sound, and answers the count of its bytes.
#[tactic(auto, using(crate::proofs::Values::smoothed_fit))]
fn put_listing(reading: &Reading, output: &mut [u8]) -> Result<usize, Refusal>
    requires { is_sound reading.now.observation ≡ true }
    ensures value { answer_of result ≡ answer (listing_refusal output.old) (length (listing_text reading.now.group reading.now.subgroup reading.now.observation.smoothed)) }
    ensures output_after { output.new ≡ listing_exit output.old reading.now.group reading.now.subgroup reading.now.observation.smoothed }
{
    let smoothed = narrowed(&reading.observation.smoothed);
    fill_listing(&reading.group, &reading.subgroup, &smoothed, output)
}

// The values, which fit 32 bits, in 32 bits each.
#[tactic(auto, using(crate::proofs::Values::value_fits, std::proofs::lemmas::Grind::common_steps, std::proofs::lemmas::Grind::same_number_lists))]
fn narrowed(values: &[u64; ORDER_COUNT]) -> [u32; ORDER_COUNT]
    requires { none_above largest_value values.now ≡ true }
    ensures { result ≡ values.now }
{
    let mut narrow = [0; ORDER_COUNT];
    for i in 0..ORDER_COUNT {
        narrow[i] = values[i] as u32;
    }
    narrow
}
