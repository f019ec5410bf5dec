ghost use Rattle.std.specs.Prelude.{◌≡◌};

/// Whether an editor has asked for its text, has been answered, or has closed it.
#[derive(Clone, Copy, Debug, PartialEq, Eq)]
pub enum State {
    /// It has asked, and has no answer yet.
    Opening,
    /// Its open was taken.
    Open,
    /// It has not asked, has closed the text, has lost its connection, or was told of an error.
    Closed,
}

impl State {
    ghost use Rattle.bridge_world.specs.Plain.{is_closed};
    ghost use Rattle.bridge_world.specs.Kept.{as_state, as_kind};
    ghost use Rattle.bridge_world.specs.Steps.{is_open, admitted, state_after};

    /// Whether the editor has closed its text.
    pub fn is_closed(self) -> bool
        ensures { result ≡ is_closed (as_state self) }
    {
        matches!(self, State::Closed)
    }

    /// Whether the editor shows what comes from the daemon.
    pub(crate) fn is_open(self) -> bool
        ensures { result ≡ is_open (as_state self) }
    {
        matches!(self, State::Open)
    }

    /// The state once the open of the present session was taken.
    fn admitted(self) -> State
        ensures { as_state result ≡ admitted (as_state self) }
    {
        match self {
            State::Opening | State::Open => State::Open,
            State::Closed => State::Closed,
        }
    }

    /// The state once something has come that is not shown, of the present session or of an older one.
    pub(crate) fn after(self, kind: Kind, present: bool) -> State
        ensures { as_state result ≡ state_after (as_kind kind) (as_state self) present }
    {
        if !present {
            return self;
        }
        match kind {
            Kind::OpenDone => self.admitted(),
            Kind::Failed(_) => State::Closed,
            Kind::Done | Kind::New | Kind::Old => self,
        }
    }
}

/// Why a message is refused.
#[derive(Clone, Copy, Debug, PartialEq, Eq)]
pub enum Cause {
    /// The link is missing.
    NotOpen,
    /// There is a link already.
    AlreadyOpen,
    /// The edit is not for a text that the link knows.
    BadRevision,
    /// A reason that the link does not know, by its error code without the sign.
    Other(u64),
}

/// What is under way to an editor.
#[derive(Clone, Copy, Debug, PartialEq, Eq)]
pub enum Kind {
    /// The success of its open.
    OpenDone,
    /// The success of another message.
    Done,
    /// An error.
    Failed(Cause),
    /// A delta of the daemon that it is to show.
    New,
    /// One that was overtaken and is sent again behind.
    Old,
}

impl Kind {
    ghost use Rattle.bridge_world.specs.Plain.{aged};
    ghost use Rattle.bridge_world.specs.Counted.{carries_delta};
    ghost use Rattle.bridge_world.specs.Kept.{as_kind};

    /// Whether it is a delta of the daemon, and no answer.
    pub(crate) fn carries_delta(self) -> bool
        ensures { result ≡ carries_delta (as_kind self) }
    {
        matches!(self, Kind::New | Kind::Old)
    }

    /// The same once it is overtaken.
    pub(crate) fn aged(self) -> Kind
        ensures { as_kind result ≡ aged (as_kind self) }
    {
        match self {
            Kind::New => Kind::Old,
            Kind::OpenDone => Kind::OpenDone,
            Kind::Done => Kind::Done,
            Kind::Failed(cause) => Kind::Failed(cause),
            Kind::Old => Kind::Old,
        }
    }
}

/// What is under way to an editor, with its session: editors count their opens.
#[derive(Clone, Copy, Debug, PartialEq, Eq)]
pub struct Mark {
    /// The number of the editor's open that it belongs to.
    pub session: u64,
    /// What it is.
    pub kind: Kind,
}

/// What the daemon makes of a message that its link could take.
#[derive(Clone, Copy, Debug, PartialEq, Eq)]
pub enum Verdict {
    /// It is taken.
    Accepts,
    /// It is refused, for this cause.
    Refuses(Cause),
}
