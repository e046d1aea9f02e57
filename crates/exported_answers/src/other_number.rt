// The number of a refusal of which no more is known.
ghost use Rattle.exported_answers.specs.OwnChecks.{IsOther};

// A number that stands for a refusal of neither the documents nor the calls.
#[derive(Clone, Copy, Debug, PartialEq, Eq)]
pub struct OtherNumber {
    pub number: u32,
    pub ghost other: { IsOther number },
}
