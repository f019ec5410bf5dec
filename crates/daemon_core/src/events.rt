use tt_base::Blob;

/// What happens to a daemon.
#[derive(Debug, Drop)]
pub enum Event {
    /// A connection of an editor has begun, with this number.
    EditorBegan(u64),
    /// A connection has ended.
    Ended(u64),
    /// A frame with this body has come on a connection.
    EditorFrame(u64, Blob),
}

/// What a person is to be told.
#[derive(Debug, Drop)]
pub enum Notice {
    /// Two changes have one name: the encoding of the one that is held, and of the one that was to be.
    Clash(Blob, Blob),
}

/// What a daemon asks for.
#[derive(Debug, Drop)]
pub enum Output {
    /// This frame is to be sent on a connection.
    Send(u64, Blob),
    /// A connection is to end, and has ended for the daemon.
    HangUp(u64),
    /// This is to be told.
    Notice(Notice),
    /// The daemon is to stop.
    Shutdown,
}
