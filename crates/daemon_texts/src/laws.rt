//! What holds of a daemon over a store and of one that keeps its texts. Each function has an empty body, and its contract is the law.
ghost use Rattle.daemon_texts.specs.Same.{TextsDoWhatIsWanted, EventsDoTheSame};

/// A daemon that keeps texts does with each message what is wanted of the desk that it shows.
pub fn texts_do_what_is_wanted()
    ensures { TextsDoWhatIsWanted }
{}

/// A daemon over a store and one that has its texts do the same with each event, unless two changes have one name: they send the same,
/// and the one goes on with the texts of the other.
pub fn events_do_the_same()
    ensures { EventsDoTheSame }
{}
