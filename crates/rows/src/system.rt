// The systems: cycles of the mains in a window.
ghost use Rattle.std.specs.Prelude.{◌≡◌};
ghost use Rattle.rows.specs.Systems.{is_system};

// The system is 10 or 12 cycles in a window.
pub(crate) fn is_system(system: u32) -> bool
    ensures { result ≡ is_system system }
{
    (system == 10) | (system == 12)
}
