ghost use Rattle.std.specs.Prelude.{◌≡◌, IfOk};
ghost use Rattle.tt_base.specs.Answers.{Gives};
ghost use Rattle.file_uri.specs.FileUrl as spec;

use crate::faults::UriFault;
use percent_encoding::percent_decode;
use std::alloc::{AllocError, Global};
use url::{ParseError, Url};

/// How an error of the parser of URLs counts. A URL of 4 GB or more wants more room than the parser has.
fn refusal_of(error: ParseError) -> UriFault
    ensures { result ≡ spec.refusal_of error }
{
    match error {
        ParseError::OutOfMemory | ParseError::Overflow => UriFault::Memory,
        _ => UriFault::NotAUri,
    }
}

/// The parser's answer, if it is the URL of a file on this host. This asks for no memory.
fn local_answer(answer: Result<Url, ParseError>) -> Result<Url, UriFault>
    ensures { result ≡ spec.local_answer answer }
{
    let url = match answer {
        Ok(url) => url,
        Err(error) => return Err(refusal_of(error)),
    };
    if url.scheme() != "file" {
        return Err(UriFault::NotFile);
    }
    if url.has_host() {
        return Err(UriFault::HasHost);
    }
    Ok(url)
}

/// Reads the URL of a file on this host.
pub(crate) fn file_url(alloc: Global, uri: &str) -> Result<Url, UriFault>
    ensures { Gives UriFault.Memory result (spec.file_url uri.now) }
{
    local_answer(Url::parse(alloc, uri))
}

/// The bytes that the URL's path stands for.
pub(crate) fn decoded_path(alloc: Global, url: &Url) -> Result<Vec<u8>, AllocError>
    ensures { IfOk result (λ path. path.items ≡ spec.decoded_path url.now) }
{
    let mut path = Vec::new(alloc);
    percent_decode(url.path().as_bytes()).append_to(&mut path)?;
    Ok(path)
}
