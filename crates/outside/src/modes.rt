/// What a stopped device has kept of the writes since its last sync that succeeded, the stopped one
/// included, and of a stopped put or removal of a file.
///
/// A crash may leave any bytes where such a write was made. These are three of the images that it
/// may leave, for a device in memory that is stopped on purpose.
#[derive(Clone, Copy, Debug, PartialEq, Eq)]
pub enum Mode {
    /// None of the writes was made, and the file has its old content.
    Lost,
    /// All of the writes were made, and the file has its new content.
    Kept,
    /// Of each write, in order, the first half of its bytes (rounded down) was made, and each other
    /// byte is a5. The file has its old content.
    Torn,
}
