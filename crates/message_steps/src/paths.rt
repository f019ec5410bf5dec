ghost use Rattle.std.specs.Prelude.{◌≡◌, true, Ok, None, IfOk, IfErr};
ghost use Rattle.file_uri.specs.PathOf as uris;
ghost use Rattle.daemon_core.specs.Refusing as spec;
ghost use Rattle.daemon_core.specs.Refusing.{refused, unless_bad_uri};
ghost use Rattle.daemon_links.specs.Editing.{Stops};
ghost use Rattle.message_steps.specs.Asking as asking;

use daemon_links::Stop;
use file_uri::{Base, UriFault, path_of};
use rpc_message::{FromEditor, Refusal, UriCause};
use std::alloc::{AllocError, Global};
use tt_base::{PathFault, SharedPath, Uri};

/// The name of a rule of paths among the causes.
fn path_cause(fault: PathFault) -> UriCause
    ensures { result ≡ spec.path_cause fault }
{
    match fault {
        PathFault::TooLong => UriCause::TooLong,
        PathFault::NulByte => UriCause::NulByte,
        PathFault::Absolute => UriCause::Absolute,
        PathFault::Empty | PathFault::Memory => UriCause::Empty,
        PathFault::DotPart => UriCause::DotPart,
        PathFault::Reserved => UriCause::Reserved,
        PathFault::TooDeep => UriCause::TooDeep,
    }
}

/// The name of a rule of URIs among the causes.
fn uri_cause(fault: UriFault) -> UriCause
    ensures { result ≡ spec.uri_cause fault }
{
    match fault {
        UriFault::NotAUri | UriFault::NotABase | UriFault::Memory => UriCause::NotAUri,
        UriFault::NotFile => UriCause::NotFile,
        UriFault::HasHost => UriCause::HasHost,
        UriFault::OutsideBase => UriCause::OutsideBase,
        UriFault::NotUtf8 => UriCause::NotUtf8,
        UriFault::BadPath(fault) => path_cause(fault),
    }
}

/// The path that a URI names below the base.
pub(crate) fn path_named(alloc: Global, base: &Base, uri: &Uri) -> Result<SharedPath, Stop>
    ensures ok { IfOk result (λ path. uris.path_of base.now uri.now ≡ Ok path) }
    ensures stop { IfErr result (Stops (λ refusal. unless_bad_uri (uris.path_of base.now uri.now) ≡ refused refusal)) }
{
    match path_of(alloc, base, uri.as_str()) {
        Ok(path) => Ok(path),
        Err(UriFault::Memory) => Err(Stop::Memory),
        Err(fault) => Err(Stop::Refused(Refusal::BadUri(uri_cause(fault)))),
    }
}

/// The path of the file that a message opens, if it names one. Its text has to be at hand for the step, beside those of links.
pub fn path_to_open(
    alloc: Global,
    base: &Base,
    message: &FromEditor,
) -> Result<Option<SharedPath>, AllocError>
    ensures path { IfOk result (λ path. path ≡ asking.path_to_open base.now message.now) }
    // A message that names no file is judged without memory.
    ensures sure { asking.names_no_file message.now ≡ true → result ≡ Ok None }
{
    let FromEditor::Open { uri, .. } = message else {
        return Ok(None);
    };
    match path_of(alloc, base, uri.as_str()) {
        Ok(path) => Ok(Some(path)),
        Err(UriFault::Memory) => Err(AllocError),
        Err(_) => Ok(None),
    }
}
