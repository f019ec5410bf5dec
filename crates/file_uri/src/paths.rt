ghost use Rattle.std.specs.Prelude.{◌≡◌, true, false, IfOk, IfErr, MatchOption, Ok};
ghost use Rattle.tt_base.specs.Answers.{Gives};
ghost use Rattle.file_uri.specs.PathOf as spec;
ghost use Rattle.file_uri.specs.UriOf as written;
ghost use Rattle.file_uri.specs.PlainUri.{is_plain, rest_of};
ghost use Rattle.percent_encoding.specs.Percent as percent;

use crate::bases::Base;
use crate::faults::UriFault;
use crate::plain::{decode_plain, has_dot_part};
use crate::urls::{decoded_path, file_url};
use percent_encoding::{AsciiSet, NON_ALPHANUMERIC, ascii_set, percent_encode};
use std::alloc::{AllocError, Global};
use tt_base::{SharedPath, Uri};

/// The ASCII bytes that are escaped in the URI of a path: all but letters, digits, `-`, `.`, `_`,
/// `~` and `/`.
const ESCAPED: AsciiSet = ascii_set!(
    NON_ALPHANUMERIC
        .remove(b'-')
        .remove(b'.')
        .remove(b'_')
        .remove(b'~')
        .remove(b'/')
);

/// The shared path that the bytes are. They are refused before memory is asked for.
fn shared_path(alloc: Global, bytes: &[u8]) -> Result<SharedPath, UriFault>
    ensures gives { Gives UriFault.Memory result (spec.shared_path bytes.now) }
    ensures refused { IfErr (spec.shared_path bytes.now) (λ fault. result ≡ Err fault) }
{
    let text = match str::from_utf8(bytes) {
        Ok(text) => text,
        Err(_) => return Err(UriFault::NotUtf8),
    };
    let path = SharedPath::read(alloc, text)?;
    Ok(path)
}

/// The shared path that the bytes are below a directory. They are refused before memory is asked for.
fn path_below(alloc: Global, directory: &[u8], bytes: &[u8]) -> Result<SharedPath, UriFault>
    ensures gives { Gives UriFault.Memory result (spec.path_below directory.now bytes.now) }
    ensures refused { IfErr (spec.path_below directory.now bytes.now) (λ fault. result ≡ Err fault) }
{
    match bytes.strip_prefix(directory) {
        Some(rest) => shared_path(alloc, rest),
        None => Err(UriFault::OutsideBase),
    }
}

/// What a plain URI stands for behind the base's text, or `None` where the URI is not plain.
fn plain_path(alloc: Global, base: &Base, uri: &str) -> Result<Option<Vec<u8>>, AllocError>
    ensures { IfOk result (λ path. MatchOption path (is_plain base.now uri.now ≡ false)
        (λ bytes. (is_plain base.now uri.now ≡ true)
        × (bytes.items ≡ percent.percent_decode (rest_of base.now uri.now)))) }
{
    let Some(rest) = uri.as_bytes().strip_prefix(base.text().as_bytes()) else {
        return Ok(None);
    };
    let Some(bytes) = decode_plain(alloc, rest)? else {
        return Ok(None);
    };
    if has_dot_part(bytes.as_slice()) {
        return Ok(None);
    }
    Ok(Some(bytes))
}

/// The shared path that a URI names below the base.
///
/// The URI is read by the URL Standard; its query and its fragment are passed over. A plain URI
/// goes on behind the base's text with letters, digits, `-`, `.`, `_`, `~`, `/` and whole escapes,
/// and has no part `.` or `..` once decoded: it is decoded in one pass, without the parser of URLs,
/// and can only be refused as `NotUtf8`, `BadPath` or `Memory`.
pub fn path_of(alloc: Global, base: &Base, uri: &str) -> Result<SharedPath, UriFault>
    ensures { Gives UriFault.Memory result (spec.path_of base.now uri.now) }
{
    base.settled();
    if let Some(bytes) = plain_path(alloc, base, uri)? {
        return shared_path(alloc, bytes.as_slice());
    }
    let url = file_url(alloc, uri)?;
    let bytes = decoded_path(alloc, &url)?;
    path_below(alloc, base.path(), bytes.as_slice())
}

/// The URI of a shared path: the text of the base and then the path, in which every byte is
/// escaped but ASCII letters, digits, `-`, `.`, `_`, `~` and `/`.
pub fn uri_of(alloc: Global, base: &Base, path: &SharedPath) -> Result<Uri, AllocError>
    ensures text { IfOk result (λ uri. uri ≡ written.uri_of base.now path.now) }

    // The URI names the path that it was made of.
    ensures back { IfOk result (λ uri. spec.path_of base.now uri ≡ Ok path.now) }
{
    base.settled();
    let mut text = String::from_str(alloc, base.text())?;
    percent_encode(path.as_str().as_bytes(), ESCAPED).append_to(&mut text)?;
    Uri::from_str(alloc, text.as_str())
}
