// The text of a recording, read a window at a time.
// A reading goes in by value and comes back by value. The caller lends the bytes of the input: the first line to `begin`, then the lines of one window
// at a time to `take_block`. What is written at the end of a reading, and that this is document 01's output of the whole input, is harmlist_output's.
#![tactic(auto)]

mod blocks;
mod text_lines;

pub use blocks::{begin, take_block};
use columns::COLUMN_WIDTH;
use records::Observation;
use rows::ORDER_COUNT;
use windows::WINDOW_LENGTH;

// The bytes of a line: a column of 8 and a newline.
pub const LINE_BYTES: usize = COLUMN_WIDTH + 1;
// The bytes of a window's lines.
pub const WINDOW_BYTES: usize = LINE_BYTES * WINDOW_LENGTH;

// How far an input has been read: the refusal that its lines gave, or 0 with the record of the windows so far and the last window's harmonic
// groups and subgroups, orders 1..40.
// The refusal is a number, since a caller may hand over any reading: harmlist_output::finish answers 7 for a number that is no refusal of document 01.
#[derive(Drop)]
pub struct Reading {
    pub refusal: u32,
    pub observation: Observation,
    pub group: [u32; ORDER_COUNT],
    pub subgroup: [u32; ORDER_COUNT],
}
