ghost use Rattle.std.specs.Prelude.{◌≡◌, ◌≤◌, length, Ok, IfErr};
ghost use Rattle.tt_base.specs.Answers.{Gives};
ghost use Rattle.file_uri.specs.FileUrl.{file_url};
ghost use Rattle.file_uri.specs.Base.{IsBase, base_at, base_of, ends_with_slash, is_directory};

use crate::faults::UriFault;
use crate::urls::{decoded_path, file_url};
use std::alloc::Global;
use std::marker::Model;
use url::Url;

/// The most bytes that the text of a base may have.
pub const MAX_BASE_BYTES: usize = 65_536;

/// The URI of a directory, below which shared paths lie.
///
/// It is seen as two lists of bytes: its text, as the URL Standard's serializer writes it, and the
/// path that it stands for, which ends with a slash.
#[derive(Debug, Drop)]
pub struct Base {
    text: String,
    path: Vec<u8>,
}

impl Model for Base {
    ghost use Rattle.std.specs.Prelude.{string_bytes};
    ghost use Rattle.file_uri.specs.Base.{BaseView, IsBase};

    ghost Value = { BaseView };

    ghost view = { λ b. record { text = string_bytes b.text; path = b.path.items } };

    ghost invariant = { λ b. IsBase (record { text = string_bytes b.text; path = b.path.items }) };
}

fn ends_with_slash(path: &str) -> bool
    ensures { result ≡ ends_with_slash path.now }
{
    path.as_bytes().ends_with(b"/")
}

fn is_directory(url: &Url) -> bool
    ensures { result ≡ is_directory url.now }
{
    url.query().is_none() && url.fragment().is_none() && ends_with_slash(url.path())
}

/// The base that the URL is, as which the text was read. It is refused before memory is asked for.
fn base_at(alloc: Global, uri: &str, url: &Url) -> Result<Base, UriFault>
    requires { file_url uri.now ≡ Ok url.now }
    ensures gives { Gives UriFault.Memory result (base_at uri.now url.now) }
    ensures refused { IfErr (base_at uri.now url.now) (λ fault. result ≡ Err fault) }
{
    let text = url.as_str();
    if uri.len() > MAX_BASE_BYTES || text.len() > MAX_BASE_BYTES || !is_directory(url) {
        return Err(UriFault::NotABase);
    }
    let path = decoded_path(alloc, url)?;
    let text = String::from_str(alloc, text)?;
    Ok(Base { text, path })
}

impl Base {
    /// Reads the URI of a directory.
    ///
    /// The causes of a refusal are `NotAUri`, `NotFile`, `HasHost`, `NotABase` and `Memory`.
    pub fn read(alloc: Global, uri: &str) -> Result<Base, UriFault>
        ensures { Gives UriFault.Memory result (base_of uri.now) }
    {
        let url = file_url(alloc, uri)?;
        base_at(alloc, uri, &url)
    }

    /// What holds of every base: it is that of a directory's URL, its text is not longer than the bound, and that text
    /// is read as the same base again.
    pub fn settled(&self)
        ensures base { IsBase self.now }
        ensures short { length self.now.text ≤ MAX_BASE_BYTES }
        ensures back { base_of self.now.text ≡ Ok self.now }
    {
        let _ = &self.text;
    }

    /// The text of the URL.
    pub(crate) fn text(&self) -> &str
        ensures { result.now ≡ self.now.text }
    {
        self.text.as_str()
    }

    /// The path that the URL stands for.
    pub(crate) fn path(&self) -> &[u8]
        ensures { result.now ≡ self.now.path }
    {
        self.path.as_slice()
    }
}
