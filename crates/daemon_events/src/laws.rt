//! What holds of every daemon over a store, whatever comes. Each function has an empty body, and its contract is the law.
ghost use Rattle.daemon_events.specs.Laws.{GoesOn, AlwaysServes, StartsServing, Restarts, RecordsStay, ChangesStay};
ghost use Rattle.daemon_events.specs.Laws.{RefusalsChangeNothing, FaultsChangeNothing, RefusalsEndLinksSo};
ghost use Rattle.daemon_events.specs.Laws.{NotificationsDoTheSame, NotificationsHaveNoReply};

/// What a daemon holds is what it recorded, and each link of each connection leads to the daemon's text of its file, whatever comes.
pub fn daemons_serve()
    ensures starts { StartsServing }
    ensures step { GoesOn }
    ensures always { AlwaysServes }
{}

/// A daemon that is started again on its records is the one that it was, without connections.
pub fn restarts_lose_nothing()
    ensures { Restarts }
{}

/// Whatever comes, records stay in their places, and each change that is held is held under its name.
pub fn what_is_held_stays()
    ensures records { RecordsStay }
    ensures changes { ChangesStay }
{}

/// A message that is refused leaves all that is held as it was, and no other connection hears of it. So does a body that is no message,
/// which ends no link either.
pub fn refusals_change_nothing()
    ensures refusals { RefusalsChangeNothing }
    ensures faults { FaultsChangeNothing }
{}

/// An edit that is refused at its link ends this link: for its revision, a position, a backward range, a text too long, or two changes
/// that have one name. No other refusal ends one.
pub fn refusals_end_links_so()
    ensures { RefusalsEndLinksSo }
{}

/// A notification does what the same message with an id does, but for the reply, which it does not have.
pub fn notifications_do_the_same()
    ensures same { NotificationsDoTheSame }
    ensures reply { NotificationsHaveNoReply }
{}
