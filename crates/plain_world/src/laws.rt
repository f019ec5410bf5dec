//! What holds of the plain machine. Each function has an empty body, and its contract is the law.
ghost use Rattle.plain_world.specs.Laws.{QuietShowsFile, ReadersAgree, NoMessageChangesNothing, BadFramesEndOneConnection};
ghost use Rattle.plain_world.specs.RawFrames.{Reader};

/// After every list of moves, an editor for which `show` tells `quiet` shows its daemon's text of its file.
pub fn l1()
    ensures { QuietShowsFile }
{}

/// There is a reading of every stream by the grammar of frames, so what is said of each reader is said of one.
pub fn there_is_a_reader()
    ensures { Reader }
{}

/// Any two readers read each stream alike, so what is said of one is said of all.
pub fn readers_agree()
    ensures { ReadersAgree }
{}

/// A body that is no message leaves the world as it was: it is answered, and that is all.
pub fn no_message_changes_nothing()
    ensures { NoMessageChangesNothing }
{}

/// A connection that ends by a fault of its frames ends alone: all files, all other links, and what is kept of all other streams stay.
pub fn bad_frames_end_one_connection()
    ensures { BadFramesEndOneConnection }
{}
