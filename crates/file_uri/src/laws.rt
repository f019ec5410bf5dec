ghost use Rattle.file_uri.specs.Laws.{PathComesBack, PlainReadingAgrees};

/// What the URL Standard's parser makes of a plain URI is what can be read off it: the path below
/// the base, or that this is not UTF-8 or no shared path.
pub fn plain_reading_agrees()
    ensures { PlainReadingAgrees }
{}

/// The URI that is written for a path names that path, below the same base.
pub fn path_comes_back()
    ensures { PathComesBack }
{}
