// The reading of an input: its first line, and then one window's lines at a time.
ghost use Rattle.std.specs.Prelude.{◌≡◌, length};
ghost use Rattle.refusals.specs.Numbers.{no_refusal};
ghost use Rattle.refusals.specs.Answers.{refusal_of};
ghost use Rattle.windows.specs.Window.{window_length};
ghost use Rattle.spectral_lines.specs.Line.{lines_of, line_count};
ghost use Rattle.groups.specs.Group.{group_values};
ghost use Rattle.observation.specs.Calls.{record_answer_of};
ghost use Rattle.recordings.specs.Blocks.{begin_of, block_refusal, samples_of, block_of};
ghost use Rattle.recordings.specs.Steps.{system_word, first_record, lines_taken};

use crate::text_lines::{number_on, read_samples};
use crate::{LINE_BYTES, Reading, WINDOW_BYTES};
use groups::group_row;
use kinds::Kind;
use observation::{add_row, fresh_record, refused_record};
use records::Observation;
use refusals::{NO_REFUSAL, Refusal, refuse_if};
use rows::{EDITION_2, ORDER_COUNT, Row, Setup};
use spectral_lines::LINE_COUNT;
use spectrum::spectrum;
use windows::WINDOW_LENGTH;

// The reading after the first line of an input, which is handed over with its newline; a shorter input is handed over whole. Bytes after the line are
// not looked at. Refused: 13, 1.
#[tactic(auto, unfolding(crate::specs::Blocks::begin_of, crate::specs::Steps::first_record))]
pub fn begin(line: &[u8]) -> Reading
    ensures { result ≡ begin_of line.now }
{
    let (refusal, observation) = match first_record(line) {
        Ok(observation) => (NO_REFUSAL, observation),
        Err(refusal) => (refusal.number(), refused_record()),
    };
    Reading {
        refusal,
        observation,
        group: [0; ORDER_COUNT],
        subgroup: [0; ORDER_COUNT],
    }
}

// The record that an input begins with. Refused: 13, 1.
#[tactic(auto, using(crate::proofs::FirstLine::first_record_refused, crate::proofs::FirstLine::first_record_read, crate::proofs::FirstLine::first_line_is))]
fn first_record(line: &[u8]) -> Result<Observation, Refusal>
    ensures { record_answer_of result ≡ first_record line.now }
{
    let number = number_on(&line[..LINE_BYTES.min(line.len())])?;
    fresh_record(Setup {
        system: system_word(number),
        edition: EDITION_2,
    })
}

// The number of the system line as a system: 0, which is none, where 32 bits do not hold it.
#[tactic(auto, unfolding(crate::specs::Steps::system_word))]
fn system_word(number: i64) -> u32
    ensures { result ≡ system_word number }
{
    u32::try_from(number).unwrap_or(0)
}

// The reading after the next block of an input: one window's lines, the last block as many as are left. A refused reading stays as it is, and so does
// any at an empty block. Bytes after one window's lines are not looked at. Refused: 13 and 3 at the first line that gives them, 2, 9.
#[tactic(auto, using(crate::proofs::BlockLaws::lines_taken_is), unfolding(crate::specs::Blocks::block_of))]
pub fn take_block(mut reading: Reading, block: &[u8]) -> Reading
    ensures { result ≡ block_of reading block.now }
{
    if reading.refusal != NO_REFUSAL || block.is_empty() {
        return reading;
    }
    let mut lines = [0; LINE_COUNT];
    match fill_lines(block, &mut lines) {
        Ok(()) => take_lines(reading, &lines),
        Err(refusal) => {
            reading.refusal = refusal.number();
            reading
        }
    }
}

// Writes the spectral lines of a block's window. Its samples are in range, so that the spectrum refuses none.
fn fill_lines(block: &[u8], lines: &mut [u64]) -> Result<(), Refusal>
    requires { length lines.old ≡ line_count }
    ensures value { refusal_of result ≡ block_refusal block.now }
    ensures lines_after { block_refusal block.now ≡ no_refusal → lines.new ≡ lines_of (samples_of block.now) }
{
    let mut samples = [0; WINDOW_LENGTH];
    read_window(block, &mut samples)?;
    spectrum(&samples, 0, lines)
}

// Reads the samples of a block's window: 13 and 3 at the first line that gives them, 2.
#[tactic(auto, using(crate::proofs::BlockSamples::few_lines, crate::proofs::BlockSamples::lines_read, crate::proofs::BlockSamples::samples_read), unfolding(crate::specs::Blocks::block_refusal))]
fn read_window(block: &[u8], samples: &mut [i32]) -> Result<(), Refusal>
    requires { length samples.old ≡ window_length }
    ensures value { refusal_of result ≡ block_refusal block.now }
    ensures samples_after { block_refusal block.now ≡ no_refusal → samples.new ≡ samples_of block.now }
{
    read_samples(&block[..WINDOW_BYTES.min(block.len())], samples)?;
    refuse_if(block.len() < WINDOW_BYTES, Refusal::ShortWindow)
}

// The reading with one more window, by its spectral lines.
#[tactic(auto, unfolding(crate::specs::Steps::lines_taken))]
fn take_lines(reading: Reading, lines: &[u64]) -> Reading
    ensures { result ≡ lines_taken reading lines.now }
{
    let setup = reading.observation.setup;
    let group = group_values(Kind::HarmonicGroup, setup, lines);
    let subgroup = group_values(Kind::HarmonicSubgroup, setup, lines);
    let row = Row {
        setup,
        values: group,
    };
    let (refusal, observation) = match add_row(reading.observation, row) {
        Ok(observation) => (NO_REFUSAL, observation),
        Err(refused) => (refused.refusal.number(), refused.observation),
    };
    Reading {
        refusal,
        observation,
        group,
        subgroup,
    }
}

// The group values of the 40 orders: zeros where the row is refused, as under an unknown setup.
#[tactic(auto, using(crate::proofs::WindowLines::row_values), unfolding(rows::specs::Rows::refused_row))]
fn group_values(kind: Kind, setup: Setup, lines: &[u64]) -> [u32; ORDER_COUNT]
    ensures { result ≡ group_values kind setup lines.now }
{
    match group_row(kind, setup, lines) {
        Ok(row) => row.values,
        Err(_) => [0; ORDER_COUNT],
    }
}
