//! How the program ends: its status, and the line on standard error.

ghost use Rattle.std.specs.Prelude.{◌≡◌, Some};
ghost use Rattle.std.specs.Process.{exit_status};
ghost use Rattle.std.specs.IoError.{error_kind};
ghost use Rattle.replay.specs.Faults.{status_of};
ghost use Rattle.teamreplay.specs.Ends.{fault_unread};

use replay::{ReplayEnd, ReplayFault};
use std::process::ExitCode;
use std::{fmt, io};

/// The end of a replay as it is told on standard error, in one line without its line end.
#[derive(Drop)]
pub struct EndLine(pub ReplayEnd);

impl fmt::Display for EndLine {
    ghost use Rattle.std.specs.Prelude.{Some};
    ghost use Rattle.teamreplay.specs.Ends.{end_line};

    ghost output = { λ line. Some (end_line line.0) };

    fn fmt<W: fmt::Write>(&self, f: &mut fmt::Formatter<W>) -> fmt::Result {
        let status = self.0.status;
        let line = self.0.line;
        write!(f, "teamreplay: status {status} at line {line}")
    }
}

fn fault_unread(error: &io::Error) -> ReplayFault
    ensures { result ≡ fault_unread (error_kind error.now) }
{
    match error.kind() {
        io::ErrorKind::OutOfMemory => ReplayFault::Memory,
        _ => ReplayFault::Words,
    }
}

/// The end where the words of the command line cannot be read. Nothing was played.
pub fn end_unread(error: &io::Error) -> ReplayEnd
    ensures { let fault = Some (fault_unread (error_kind error.now)) in result ≡ record { status = status_of fault; line = 0; fault = fault } }
{
    ReplayEnd::new(Some(fault_unread(error)), 0)
}

/// Tells an end that is no success on standard error, and gives the status of the program.
///
/// The status is the same where standard error takes nothing: the line is then not told.
pub fn tell_end(rt: &impl Eprint, end: ReplayEnd) -> ExitCode
    ensures { exit_status result ≡ end.status }
{
    if end.status != 0 {
        let _ = rt.eprintln(EndLine(end));
    }
    ExitCode::from(end.status)
}
