// The editions of IEC 61000-4-7, by their numbers.
ghost use Rattle.std.specs.Prelude.{◌≡◌};
ghost use Rattle.rows.specs.Editions.{is_edition};

// Edition 2.
pub const EDITION_2: u32 = 0;
// Edition 2.0 A1, which groups from the second order up.
pub const EDITION_A1: u32 = 1;

// The edition is 2 or A1.
pub(crate) fn is_edition(edition: u32) -> bool
    ensures { result ≡ is_edition edition }
{
    (edition == EDITION_2) | (edition == EDITION_A1)
}
