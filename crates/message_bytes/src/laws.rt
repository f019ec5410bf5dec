//! What holds of the bytes of messages. Each function has an empty body, and its contract is the law.
ghost use Rattle.message_bytes.specs.Laws.{RequestComesBack, AnswerComesBack};

/// The body of a request is read as that request, with its id.
pub fn requests_come_back()
    ensures { RequestComesBack }
{}

/// The bytes of a message to an editor are read as that message.
pub fn answers_come_back()
    ensures { AnswerComesBack }
{}
