// Why the reading of lexemes stops.
ghost use Rattle.std.specs.Prelude.{◌≡◌};

use crate::rest::Rest;
use std::alloc::AllocError;

/// Why the reading of lexemes stops: for want of memory, or at a fault, with the lexemes from the one at fault on.
#[derive(Drop)]
pub enum Stop<'a> {
    Memory,
    At(Rest<'a>),
}

impl<'a> From<AllocError> for Stop<'a> {
    ghost use Rattle.hv_sql.specs.declared.stop.Stop.TheVariants.{Memory};

    ghost from_gives = { λ _ e. e ≡ Memory };

    fn from(_error: AllocError) -> Stop<'a> {
        Stop::Memory
    }
}
