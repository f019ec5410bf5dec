//! What holds of every daemon, whatever comes. Each function has an empty body, and its contract is the law.
ghost use Rattle.daemon_core.specs.Laws.{GoesOn, AlwaysServes, RefusalsChangeNothing, RefusalsEndLinksSo, NotificationsHaveNoReply, NotificationsDoTheSame};

/// Each link of each connection leads to the daemon's text of its file, whatever comes.
pub fn links_lead_to_files()
    ensures step { GoesOn }
    ensures always { AlwaysServes }
{}

/// A message that is refused leaves all files as they were, and no other connection hears of it.
pub fn refusals_change_nothing()
    ensures { RefusalsChangeNothing }
{}

/// An edit that is refused at its link ends this link: for its revision, a position, a backward range, or a text too long. No
/// other refusal ends one.
pub fn refusals_end_links_so()
    ensures { RefusalsEndLinksSo }
{}

/// A notification is not answered, and does else what the same message with an id does.
pub fn notifications_have_no_reply()
    ensures reply { NotificationsHaveNoReply }
    ensures same { NotificationsDoTheSame }
{}
