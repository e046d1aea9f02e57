// The checks of a setup, and the one of a record that is refused.
ghost use Rattle.std.specs.Prelude.{◌≡◌};
ghost use Rattle.refusals.specs.Answers.{first_fault, refusal_of};
ghost use Rattle.rows.specs.Setups.{is_setup, setup_checks, refused_setup};

use crate::edition::is_edition;
use crate::system::is_system;
use crate::{EDITION_2, Setup};
use refusals::{Refusal, refuse_if};

impl Setup {
    // The system and the edition are known.
    #[tactic(auto, unfolding(crate::specs::Setups::is_setup))]
    pub fn is_known(self) -> bool
        ensures { result ≡ is_setup self }
    {
        is_system(self.system) && is_edition(self.edition)
    }

    // The checks of a setup: 1 unknown system, 19 unknown edition.
    pub fn check(self) -> Result<(), Refusal>
        ensures { refusal_of result ≡ first_fault (setup_checks self) }
    {
        refuse_if(!is_system(self.system), Refusal::UnknownSystem)?;
        refuse_if(!is_edition(self.edition), Refusal::UnknownEdition)?;
        Ok(())
    }

    // The setup of a record that is refused.
    pub fn refused() -> Setup
        ensures { result ≡ refused_setup }
    {
        Setup {
            system: 10,
            edition: EDITION_2,
        }
    }
}
