// The calls that make an observation record and add a row to it. The record goes in by value and comes back by
// value: document 01 names that form.
#![tactic(auto)]

ghost use Rattle.std.specs.Prelude.{◌≡◌};

mod book;
mod calls;

pub use calls::{add_row, fresh_record, refused_record};
use records::Observation;
use refusals::Refusal;

// A row that was not added: why, and the record unchanged.
#[derive(Drop)]
pub struct RowRefused {
    pub refusal: Refusal,
    pub observation: Observation,
}

// Why a row was not added, for a caller that keeps no record.
impl From<RowRefused> for Refusal {
    ghost from_gives = { λ refused refusal. refusal ≡ refused.refusal };

    fn from(refused: RowRefused) -> Refusal {
        refused.refusal
    }
}
