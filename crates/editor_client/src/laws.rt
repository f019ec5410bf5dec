//! What holds of the definitions of an editor. Each function has an empty body, and its contract is the law.
ghost use Rattle.editor_client.specs.Laws.{SentEditIsChange, WrittenIsShown};

/// The edit that is sent for a change is the change.
pub fn sent_edit_is_the_change()
    ensures { SentEditIsChange }
{}

/// What the daemon writes for the text that an open editor shows is shown.
pub fn written_delta_is_shown()
    ensures { WrittenIsShown }
{}
