// The refusals of document 01's table and of document 02's cards. A call that may be refused answers a Result; a row of checks is a row of `if`s, of which
// the first that finds its fault returns.
// specs/Numbers.antt has the documents' numbers once for the contracts, and specs/Answers.antt what a Result stands for in the documents.
#![tactic(auto)]

ghost use Rattle.std.specs.Prelude.{cond, ◌≡◌};
ghost use Rattle.refusals.specs.Answers.{number_of, refusal_of};
ghost use Rattle.refusals.specs.Numbers.{no_refusal};

// No refusal: the number of an accepted call, for a C caller and for a reading, which hold a number.
pub const NO_REFUSAL: u32 = 0;

// Why a call is refused, each with its number in the documents.
#[derive(Clone, Copy, Debug, PartialEq, Eq)]
pub enum Refusal {
    // The system is neither 10 nor 12 cycles in a window.
    UnknownSystem = 1,
    // Fewer than 2,048 samples from the start of the window.
    ShortWindow = 2,
    // A sample of the window lies outside -131,071..131,071.
    SampleOutOfRange = 3,
    // A buffer of lines that does not hold 512, or that reaches past line 1,023.
    WrongLineCount = 4,
    // A spectral line above 2^59.
    LineTooLarge = 5,
    // A harmonic order outside the orders of the call.
    OrderOutOfRange = 6,
    // An observation record that is not sound.
    UnsoundRecord = 7,
    // A row whose system or edition is not the record's.
    OtherSetup = 8,
    // The record holds 45,000 windows already.
    RecordFull = 9,
    // No window has come yet.
    NoWindow = 10,
    // K, the units per ampere, lies outside 1..2^28.
    ScaleOutOfRange = 11,
    // The distortion of a row whose first value is 0.
    NoFundamental = 12,
    // A text that is no number column, or a number wider than its column.
    NotAColumn = 13,
    // A text buffer of the wrong length.
    WrongBufferLength = 14,
    // A class letter other than A or B.
    UnknownClass = 15,
    // The edition is neither 0 (edition 2) nor 1 (A1).
    UnknownEdition = 19,
    // The record holds fewer than 15 windows.
    TooFewWindows = 20,
}

impl Refusal {
    // Its number in the documents, which a C caller receives.
    pub fn number(self) -> u32
        ensures { result ≡ number_of self }
    {
        self as u32
    }
}

// One check of a row: the refusal where its fault is there.
pub fn refuse_if(fault: bool, refusal: Refusal) -> Result<(), Refusal>
    ensures { refusal_of result ≡ cond fault (number_of refusal) no_refusal }
{
    if fault { Err(refusal) } else { Ok(()) }
}
