//! What holds of every message, whatever comes. Each function has an empty body, and its contract is the law.
ghost use Rattle.message_steps.specs.Laws.{NeverClashes};

/// A message is refused before its change is made for any cause but one: that two changes have one name.
pub fn no_message_clashes()
    ensures { NeverClashes }
{}
