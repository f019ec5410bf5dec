use crate::members::Member;
use crate::messages::MessageId;
use std::alloc::AllocError;
use thiserror::Error;

/// Why a body is no message. The causes are checked in the order in which they stand here.
#[derive(Clone, Copy, Debug, PartialEq, Eq, Error)]
pub enum Cause {
    /// It is no JSON (RFC 8259) that `serde_json` takes.
    #[error("parse error")]
    ParseError,
    /// Its value is no request and no response of JSON-RPC 2.0.
    #[error("invalid request")]
    InvalidRequest,
    /// No row of the table of methods has its method.
    #[error("method not found")]
    UnknownMethod,
    /// This member of its parameters is the first that is missing or of another form, in the order of
    /// the table of methods; `Params` stands for the parameters themselves.
    #[error("invalid params")]
    BadParams(Member),
}

/// Why a body is not read.
#[derive(Debug, Drop, Error)]
pub enum MessageFault {
    /// It is no message for this cause. `id` is the id to answer: the one that was read, or null. It
    /// is missing where the body is a notification, which is never answered.
    #[error("{cause}")]
    Refused { id: Option<MessageId>, cause: Cause },
    /// There is no memory to read it.
    #[error("out of memory")]
    Memory,
}

impl From<AllocError> for MessageFault {
    ghost use Rattle.std.specs.Prelude.{◌≡◌};
    ghost use Rattle.rpc_message.specs.declared.faults.MessageFault.TheVariants.{Memory};

    ghost from_gives = { λ _ fault. fault ≡ Memory };

    fn from(_: AllocError) -> MessageFault {
        MessageFault::Memory
    }
}

/// Why a value is no message, without the id to answer.
#[derive(Clone, Copy, Drop)]
pub(crate) enum Fault {
    Cause(Cause),
    Memory,
}

impl From<AllocError> for Fault {
    ghost use Rattle.std.specs.Prelude.{◌≡◌};
    ghost use Rattle.rpc_message.specs.declared.faults.Fault.TheVariants.{Memory};

    ghost from_gives = { λ _ fault. fault ≡ Memory };

    fn from(_: AllocError) -> Fault {
        Fault::Memory
    }
}
