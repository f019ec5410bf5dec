use delta::Delta;
use tt_base::SharedPath;

/// One change of the files: what happens to the text at a path.
#[derive(Debug, Drop)]
pub struct Change {
    /// Where the text is.
    pub path: SharedPath,
    /// What happens to it.
    pub delta: Delta,
}
