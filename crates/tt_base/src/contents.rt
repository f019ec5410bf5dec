use crate::bytes::Blob;
use crate::texts::Text;

/// What the changes held say of a path: there is no file, or a file with this text.
#[derive(Debug, PartialEq, Eq, Drop)]
pub enum View {
    Absent,
    Present(Text),
}

/// What a folder has at a path.
#[derive(Debug, PartialEq, Eq, Drop)]
pub enum Content {
    /// There is no file.
    Absent,
    /// The file has these bytes.
    Bytes(Blob),
    /// The file has more bytes than were asked for.
    Larger,
}
