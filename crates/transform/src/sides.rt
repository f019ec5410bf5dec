/// Whose delta is carried past that of the other.
#[derive(Clone, Copy, Debug, PartialEq, Eq)]
pub enum Side {
    Editor,
    Daemon,
}
