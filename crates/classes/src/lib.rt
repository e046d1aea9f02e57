// The classes of equipment of IEC 61000-3-2, and the letters by which the calls name them.
#![tactic(auto)]

ghost use Rattle.std.specs.Prelude.{◌≡◌};
ghost use Rattle.classes.specs.Letters.{class_named, class_with, is_class};

use refusals::Refusal;

// A class of equipment. B are portable tools.
#[derive(Clone, Copy, Debug, PartialEq, Eq)]
pub enum Class {
    A,
    B,
}

impl TryFrom<u8> for Class {
    type Error = Refusal;

    ghost try_from_gives = { λ letter outcome. outcome ≡ class_named letter };

    // The class that a letter names, by the byte of its capital. Refused: 15 class letter not A or B.
    #[tactic(auto, unfolding(crate::specs::Letters::is_class, crate::specs::Letters::class_with, crate::specs::Letters::letter_of))]
    fn try_from(letter: u8) -> Result<Class, Refusal> {
        match letter {
            b'A' => Ok(Class::A),
            b'B' => Ok(Class::B),
            _ => Err(Refusal::UnknownClass),
        }
    }
}

// Whether a letter names a class.
#[tactic(auto, unfolding(crate::specs::Letters::is_class))]
pub fn is_class(letter: u8) -> bool
    ensures { result ≡ is_class letter }
{
    Class::try_from(letter).is_ok()
}

// The class that a letter names; A for one that names none, which no accepted call has.
#[tactic(auto, unfolding(crate::specs::Letters::is_class, crate::specs::Letters::class_with))]
pub fn class_with(letter: u8) -> Class
    ensures { result ≡ class_with letter }
{
    Class::try_from(letter).unwrap_or(Class::A)
}
