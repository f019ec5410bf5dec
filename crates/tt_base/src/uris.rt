ghost use Rattle.std.specs.Prelude.{◌≡◌, nat_eq, string_bytes, IfOk};
ghost use Rattle.std.specs.Cmp.{partial_equiv_from_equiv};
ghost use Rattle.std.specs.Cmp.Lexicographic.{pointwise, nat_list_eq_equiv};

use std::alloc::{AllocError, Global};
use std::marker::Model;

/// The text that an editor or a daemon sent as a URI, seen as its UTF-8 bytes.
///
/// It may be any text: only a reading of it says whether it is a URI (RFC 3986), and of what.
#[derive(Debug, Drop)]
pub struct Uri {
    text: String,
}

impl Model for Uri {
    ghost use Rattle.std.specs.Prelude.{List, ℕ, string_bytes};

    ghost Value = { List ℕ };

    ghost view = { λ u. string_bytes u.text };
}

impl Uri {
    /// A copy of the text.
    pub fn from_str(alloc: Global, s: &str) -> Result<Uri, AllocError>
        ensures { IfOk result (λ uri. uri ≡ s.now) }
    {
        Ok(Uri {
            text: String::from_str(alloc, s)?,
        })
    }

    /// The text.
    pub fn as_str(&self) -> &str
        ensures { result.now ≡ self.now }
    {
        self.text.as_str()
    }
}

impl PartialEq for Uri {
    ghost eq = { pointwise nat_eq };

    ghost laws = { partial_equiv_from_equiv nat_list_eq_equiv };

    fn eq(&self, other: &Uri) -> bool {
        self.as_str() == other.as_str()
    }
}

impl Eq for Uri {
    ghost laws = { nat_list_eq_equiv };
}
