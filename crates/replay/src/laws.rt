//! Laws of scripts, for every script. Each is a function without effect whose contract is the law.

ghost use Rattle.replay.specs.Laws.{QuietEditorShowsItsFile};

/// As far as a script can be played, an editor that is told to be quiet shows its daemon's text of its file.
pub fn quiet_editor_shows_its_file()
    ensures { QuietEditorShowsItsFile }
{}
