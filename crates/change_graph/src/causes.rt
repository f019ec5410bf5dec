use thiserror::Error;

/// Why an operation of a new change is refused. Where several causes hold, the first of these four is told.
#[derive(Clone, Copy, Debug, PartialEq, Eq, Error)]
pub enum Cause {
    /// A ref counts to where nothing stands yet, or past the indices of u64, or it names a change that is not
    /// in the closure of the dependencies.
    #[error("it points at what its change does not know")]
    OutsideRef,
    /// The object is a character.
    #[error("what it names as an object is none")]
    NotAMake,
    /// A character is an object.
    #[error("what it names as a character is an object")]
    NotAnElement,
    /// A character was inserted into another object.
    #[error("what it names is a character of another object")]
    OtherObject,
}

/// The first operation of a change that is refused.
#[derive(Clone, Copy, Debug, PartialEq, Eq)]
pub struct OpFault {
    /// Its place among the operations, from 0.
    pub place: usize,
    /// Why it is refused.
    pub cause: Cause,
}
