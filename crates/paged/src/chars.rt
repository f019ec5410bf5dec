ghost use Rattle.std.proofs.Common.{lit<};
ghost use Rattle.paged.specs.Chars.{is_line_end};

use crate::items::PageItem;

/// A character is marked if it ends a line. A page has at most 1,024 characters.
impl PageItem for char {
    ghost HALF = { 512 };

    ghost marked = { is_line_end };

    const HALF: usize = 512;

    fn is_marked(self) -> bool {
        self == '\n'
    }

    ghost some = { lit< tt };

    ghost few = { lit< tt };
}
