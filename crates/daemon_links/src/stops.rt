use rpc_message::Refusal;
use std::alloc::AllocError;

/// Why a message is not carried out.
#[derive(Debug, Drop)]
pub enum Stop {
    /// It is refused.
    Refused(Refusal),
    /// Memory ran out.
    Memory,
}

impl From<AllocError> for Stop {
    ghost use Rattle.std.specs.Prelude.{◌≡◌};
    ghost use Rattle.daemon_links.specs.declared.stops.Stop.TheVariants.{Memory};

    ghost from_gives = { λ _ stop. stop ≡ Memory };

    fn from(_: AllocError) -> Stop {
        Stop::Memory
    }
}
