use super::ends::{EndLine, end_unread, tell_end};
use super::standard::{StandardInput, StandardOutput};
use outside::{Gave, Sink, Source, Took};
use replay::{ReplayEnd, ReplayFault, replay_run};
use std::alloc::Global;
use std::fmt::Display;
use std::io::{self, ErrorKind, Read, Write};
use std::process::ExitCode;
use std::test::Fail;

const SCRIPT: &[u8] = b"daemon 0\neditor 0 0 f \"abc\"\nshow 0\n";

/// Standard error, a reader and a writer that fail in each call.
#[derive(Drop)]
struct Broken;

impl Eprint for Broken {
    fn eprint<D: Display + Drop>(&self, _value: D) -> io::Result<()> {
        Err(io::Error::from(ErrorKind::StorageFull))
    }

    fn eprintln<D: Display + Drop>(&self, _value: D) -> io::Result<()> {
        Err(io::Error::from(ErrorKind::StorageFull))
    }
}

impl Read for Broken {
    fn read(&mut self, _buf: &mut [u8]) -> io::Result<usize> {
        Err(io::Error::from(ErrorKind::PermissionDenied))
    }
}

impl Write for Broken {
    fn write(&mut self, _buf: &[u8]) -> io::Result<usize> {
        Err(io::Error::from(ErrorKind::StorageFull))
    }

    fn flush(&mut self) -> io::Result<()> {
        Ok(())
    }
}

#[test]
fn an_end_is_told_by_its_line_and_its_status(rt: HostRuntime) -> Result<(), Fail> {
    for (fault, line, status, text) in [
        (None, 6, 0, "teamreplay: status 0 at line 6"),
        (
            Some(ReplayFault::Words),
            0,
            1,
            "teamreplay: status 1 at line 0",
        ),
        (
            Some(ReplayFault::NotPossible),
            7,
            2,
            "teamreplay: status 2 at line 7",
        ),
        (
            Some(ReplayFault::TooLong),
            u64::MAX,
            7,
            "teamreplay: status 7 at line 18446744073709551615",
        ),
    ] {
        let end = ReplayEnd::new(fault, line);
        let told = EndLine(end);
        assert_eq!(rt; format!(in rt.alloc(); "{told}")?.as_str(), text);
        assert!(rt;
            tell_end(&Broken, end) == ExitCode::from(status),
            "at {text}"
        );
    }
    Ok(())
}

/// The call under test. It has no clause: the tests compare what runs, and their proofs need none
/// of the call's facts.
fn played<S: Source, K: Sink>(
    alloc: Global,
    words: &[String],
    script: &mut S,
    out: &mut K,
) -> ReplayEnd {
    replay_run(alloc, words, script, out)
}

#[test]
fn words_end_the_replay(rt: HostRuntime) -> Result<(), Fail> {
    let alloc = rt.alloc();
    for (kind, fault) in [
        (ErrorKind::OutOfMemory, ReplayFault::Memory),
        (ErrorKind::InvalidData, ReplayFault::Words),
    ] {
        let end = end_unread(&io::Error::from(kind));
        assert_eq!(rt; end, ReplayEnd::new(Some(fault), 0));
    }
    let mut script = StandardInput::new(SCRIPT);
    let mut out = StandardOutput::new(Vec::new(alloc));
    let word = vec![in alloc; String::from_str(alloc, "x")?]?;
    let end = played(alloc, word.as_slice(), &mut script, &mut out);
    assert_eq!(rt; end, ReplayEnd::new(Some(ReplayFault::Words), 0));
    let end = played(alloc, &[], &mut script, &mut out);
    assert_eq!(rt; end, ReplayEnd::new(None, 3));
    assert_eq!(rt; out.writer.as_slice(), b"show 0 busy \"abc\"\n".as_slice());
    Ok(())
}

#[test]
fn a_failed_call_is_told(rt: HostRuntime) {
    let mut script = StandardInput::new(Broken);
    assert_eq!(rt; script.read(&mut [0; 4]), Took::Failed);
    assert_eq!(rt; script.faults, 1);
    let mut out = StandardOutput::new(Broken);
    assert_eq!(rt; out.write(rt.alloc(), b"ab"), Gave::Failed);
    assert_eq!(rt; out.faults, 1);
}
