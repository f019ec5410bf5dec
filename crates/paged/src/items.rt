ghost use Rattle.std.specs.Prelude.{◌≡◌, ◌<◌, ◌+◌, ◌^◌, ℕ, Bool};

/// An item of a list in pages. It is marked or not, and a list in pages counts the marked ones: the
/// characters of a text that end a line, say.
pub trait PageItem: Copy {
    ghost HALF: { ℕ };

    ghost marked: { Self → Bool };

    /// Half of the most items that a page has. Where there are more pages than one, each has so many
    /// at least.
    const HALF: usize;

    /// Whether the item is marked.
    fn is_marked(self) -> bool
        ensures { result ≡ marked self };

    ghost some: { 0 < HALF };

    ghost few: { HALF < 2 ^ 32 };
}

/// The most items that a page has.
pub(crate) fn most<T: PageItem>() -> usize
    ensures most { result ≡ T.HALF + T.HALF }
    ensures some { 0 < T.HALF }
{
    T::HALF + T::HALF
}
