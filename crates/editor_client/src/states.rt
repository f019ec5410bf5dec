ghost use Rattle.std.specs.Prelude.{◌≡◌};

/// Whether an editor has asked for its text, has been admitted to it, or has closed it.
#[derive(Clone, Copy, Debug, PartialEq, Eq)]
pub enum ClientState {
    /// It has asked for the text, and no answer has come.
    Opening,
    /// The daemon has taken its open.
    Open,
    /// It has not asked for the text, has closed it or was refused, or its connection has ended.
    Closed,
}

impl ClientState {
    ghost use Rattle.editor_client.specs.Editor.{is_closed};

    /// Whether the text is closed.
    pub fn is_closed(self) -> bool
        ensures { result ≡ is_closed self }
    {
        matches!(self, ClientState::Closed)
    }
}
