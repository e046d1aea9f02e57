// The verdict of an order against the limits of IEC 61000-3-2, in class A or B.
#![tactic(auto)]

mod call;

pub use call::order_verdict;

// What is asked: a harmonic order, the letter of a class, and the units per ampere, K, in which the record
// counts. Each is a number, since 6, 15 and 11 are the answers to those that stand for nothing.
#[derive(Clone, Copy, Debug, PartialEq, Eq)]
pub struct Question {
    pub order: u32,
    pub letter: u8,
    pub scale: u32,
}

// Document 01's three cases, each with its order.
#[derive(Clone, Copy, Debug, PartialEq, Eq)]
pub enum Verdict {
    Within(u32),
    Close(u32),
    Over(u32),
}
