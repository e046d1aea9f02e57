// The five kinds of a group, and the span of neighbouring lines that a group of each takes under an edition.
// Every function takes whatever it is handed. System and edition stay numbers: the span under an unknown one is defined too (specs/Kinds.antt).
#![tactic(auto)]

ghost use Rattle.std.specs.Prelude.{◌≡◌};
ghost use Rattle.kinds.specs.Kinds.{span_of, grouped_as};

use rows::EDITION_A1;

// The five groupings of document 01.
#[derive(Clone, Copy, Debug, PartialEq, Eq)]
pub enum Kind {
    Component,
    HarmonicGroup,
    HarmonicSubgroup,
    InterharmonicGroup,
    InterharmonicCentredSubgroup,
}

// Neighbouring lines, which a group takes with weight 1, or with weight 1/2 at both ends.
#[derive(Clone, Copy, Debug, PartialEq, Eq)]
pub struct Span {
    pub first: usize,
    pub count: usize,
    pub half_ends: bool,
}

// The kind whose lines a group takes: under A1 the harmonic group of order 1 is its component alone.
#[tactic(auto, unfolding(crate::specs::Kinds::grouped_as))]
pub fn grouped_as(kind: Kind, edition: u32, order: u32) -> Kind
    ensures { result ≡ grouped_as kind edition order }
{
    match kind {
        Kind::HarmonicGroup if edition == EDITION_A1 && order == 1 => Kind::Component,
        other => other,
    }
}

// The lines of a kind, by a system and an order.
#[tactic(auto, unfolding(crate::specs::Kinds::span_of))]
pub fn span_of(kind: Kind, system: u32, order: u32) -> Span
    ensures { result ≡ span_of kind system order }
{
    let cycles = system as usize;
    let centre = cycles * order as usize;
    match kind {
        Kind::Component => Span {
            first: centre,
            count: 1,
            half_ends: false,
        },
        Kind::HarmonicGroup => Span {
            first: centre.saturating_sub(cycles / 2),
            count: cycles + 1,
            half_ends: true,
        },
        Kind::HarmonicSubgroup => Span {
            first: centre.saturating_sub(1),
            count: 3,
            half_ends: false,
        },
        Kind::InterharmonicGroup => Span {
            first: centre + 1,
            count: cycles.saturating_sub(1),
            half_ends: false,
        },
        Kind::InterharmonicCentredSubgroup => Span {
            first: centre + 2,
            count: cycles.saturating_sub(3),
            half_ends: false,
        },
    }
}
