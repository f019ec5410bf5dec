ghost use Rattle.std.specs.Prelude.{◌≡◌};

use crate::refusals::Refusal;
use tt_base::{List, Text, TextEdit, TextRange, Uri};

/// The id of a request (JSON-RPC 2.0, section 4): a string, a whole number or null.
#[derive(Debug, PartialEq, Eq, Drop)]
pub enum MessageId {
    /// A string.
    Words(Text),
    /// A number below 0.
    Below(i64),
    /// A number from 0 on.
    Number(u64),
    /// No id, as in the answer to a body whose id could not be read.
    Null,
}

/// What an editor asks for.
#[derive(Debug, Drop)]
pub enum FromEditor {
    /// The editor has opened a file, and shows this content.
    Open {
        uri: Uri,
        content: Text,
    },
    /// The editor has closed a file.
    Close {
        uri: Uri,
    },
    /// The editor's text has changed by these edits, one after the other. `revision` counts the
    /// daemon's edits of this file that the editor has shown.
    Edit {
        uri: Uri,
        revision: u64,
        edits: List<TextEdit>,
    },
    /// What is selected in an editor's text.
    Cursor {
        uri: Uri,
        ranges: List<TextRange>,
    },
    /// The daemon is to stop.
    Shutdown,
    /// No request, but a response to one.
    Response,
}

impl FromEditor {
    ghost use Rattle.rpc_message.specs.Requests.{is_response};

    /// Whether it is no request, but a response to one.
    pub fn is_response(&self) -> bool
        ensures { result ≡ is_response self.now }
    {
        matches!(self, FromEditor::Response)
    }
}

/// A message of an editor with its id. A notification has none.
#[derive(Debug, Drop)]
pub struct Incoming {
    pub id: Option<MessageId>,
    pub message: FromEditor,
}

/// A message to an editor.
#[derive(Debug, Drop)]
pub enum ToEditor {
    /// The request with this id was carried out.
    Success(MessageId),
    /// The request with this id was refused.
    Refused(MessageId, Refusal),
    /// The text has changed by these edits, one after the other. `revision` counts the edits of the
    /// editor that the daemon has taken. It is a notification.
    Edit {
        uri: Uri,
        revision: u64,
        edits: List<TextEdit>,
    },
}
