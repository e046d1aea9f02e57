// Number columns of any width: the width of a column alone; no functions. column_reading reads a column, and column_writing writes one.
// specs/Text.antt has the bytes of a column for the contracts, specs/Column.antt its form, and specs/Calls.antt what the calls answer.
#![tactic(auto)]

// The width of a column that is read or written alone.
pub const COLUMN_WIDTH: usize = 8;
