//! What holds after every list of moves of one text and its editors. Each function has an empty body, and its
//! contract is the law.
ghost use Rattle.bridge_world.specs.Laws.{BridgeRefinesLink, TakesAreAlike, ShowsAreAlike, FactsHold, QuietShowsView};

/// The link with counts and its editors are, after every list of moves, what the link without counts and its
/// editors are. An edit that comes to its link is carried, and what is left sent again, as without counts;
/// and an open editor shows just the deltas that it shows without counts.
pub fn bridge()
    ensures refines { BridgeRefinesLink }
    ensures takes { TakesAreAlike }
    ensures shows { ShowsAreAlike }
{}

/// What each step of the plain machine keeps.
pub fn facts()
    ensures { FactsHold }
{}

/// An open editor with nothing under way either way shows the daemon's text.
pub fn quiet_editors()
    ensures { QuietShowsView }
{}
