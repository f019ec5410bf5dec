ghost use Rattle.outside_mem.specs.MemSource.{sure_source};
ghost use Rattle.outside_mem.specs.MemSink.{sure_sink};

use outside::{Gave, Sink, Source, Took};
use outside_mem::{MemSink, MemSource, SureSink, SureSource};
use replay::{ReplayEnd, ReplayFault, replay_run};
use std::alloc::{AllocError, Global};
use std::process::Abort;
use std::test::Fail;
use tt_base::{Blob, List};

mod scripts;

const FIRST: &str =
    "daemon 0\neditor 0 0 f \"abc\"\nsettle 0\ntype 0 1 1 \"X\"\nsettle 0\nshow 0\nfile 0 f\n";

const FIRST_OUTPUT: &str = "show 0 quiet \"aXc\"\nfile 0 f \"aXc\"\n";

fn blob(alloc: Global, bytes: &[u8]) -> Result<Blob, AllocError> {
    Ok(Blob::from_vec(Vec::from_slice(alloc, bytes)?))
}

fn numbers(alloc: Global, numbers: &[u64]) -> Result<List<u64>, AllocError> {
    Ok(List::from_vec(Vec::from_slice(alloc, numbers)?))
}

/// A source that gives one byte a read.
#[derive(Drop)]
struct ByteSource(SureSource);

impl Source for ByteSource {
    ghost meaning = { λ s. sure_source s.0 };

    fn read(&mut self, buf: &mut [u8]) -> Took {
        self.0.read(&mut buf[..1])
    }
}

/// A sink that takes one byte a write.
#[derive(Drop)]
struct ByteSink(SureSink);

impl Sink for ByteSink {
    ghost meaning = { λ s. sure_sink s.0 };

    fn write(&mut self, alloc: Global, piece: &[u8]) -> Gave {
        self.0.write(alloc, &piece[..1])
    }
}

/// The call under test. It has no clause: the tests compare what runs, and their proofs need none
/// of the call's facts.
fn run<S: Source, K: Sink>(
    alloc: Global,
    words: &[String],
    script: &mut S,
    out: &mut K,
) -> ReplayEnd {
    replay_run(alloc, words, script, out)
}

/// The end of the script's replay, and what was written.
fn replayed(alloc: Global, script: &[u8]) -> Result<(ReplayEnd, Vec<u8>), AllocError> {
    let mut source = SureSource::new(alloc, blob(alloc, script)?)?;
    let mut sink = SureSink::new(alloc, Blob::empty(alloc)?)?;
    let end = run(alloc, &[], &mut source, &mut sink);
    Ok((end, Vec::from_slice(alloc, sink.written())?))
}

/// A script, what it is to print, and what is to be said of its last line, where that is refused.
#[derive(Drop)]
struct Expected {
    script: String,
    printed: String,
    refused: String,
}

fn push_whole(lines: &mut String, line: &str) -> Result<(), AllocError> {
    lines.push_str(line)?;
    lines.push('\n')
}

fn push_hex(alloc: Global, line: &mut String, bytes: &[u8]) -> Result<(), AllocError> {
    for byte in bytes {
        line.push_str(format!(in alloc; "{byte:02x}")?.as_str())?;
    }
    Ok(())
}

/// A line with these words and the frame of a body.
fn push_frame(
    alloc: Global,
    lines: &mut String,
    words: &str,
    body: &str,
) -> Result<(), AllocError> {
    let length = body.len();
    let frame = format!(in alloc; "Content-Length: {length}\r\n\r\n{body}")?;
    lines.push_str(words)?;
    push_hex(alloc, lines, frame.as_bytes())?;
    lines.push('\n')
}

/// What a line of the scripts adds.
fn push_line(alloc: Global, expected: &mut Expected, line: &str) -> Result<(), AllocError> {
    if let Some(body) = line.strip_prefix(">> ") {
        push_frame(alloc, &mut expected.script, "hear 0 7 ", body)
    } else if let Some(body) = line.strip_prefix("<< ") {
        push_frame(alloc, &mut expected.printed, "told 0 7 ", body)
    } else if let Some(line) = line.strip_prefix("> ") {
        push_whole(&mut expected.script, line)
    } else if let Some(line) = line.strip_prefix("< ") {
        push_whole(&mut expected.printed, line)
    } else if let Some(text) = line.strip_prefix("! ") {
        expected.refused.push_str(text)
    } else {
        Ok(())
    }
}

/// What is said of the end of a replay.
fn end_text(alloc: Global, end: ReplayEnd) -> Result<String, AllocError> {
    match end.fault {
        Some(fault) => format!(in alloc; "{fault}"),
        None => Ok(String::new(alloc)),
    }
}

/// Plays a script to its last line, and compares what was written and what ended the replay.
fn assert_plays(
    rt: &(impl Abort + AllocGlobal),
    script: &[u8],
    printed: &str,
    refused: &str,
) -> Result<(), Fail> {
    let alloc = rt.alloc();
    let (end, written) = replayed(alloc, script)?;
    assert_eq!(rt; written.as_slice(), printed.as_bytes());
    assert_eq!(rt; end_text(alloc, end)?.as_str(), refused);
    let lines = script.iter().filter(|byte| **byte == b'\n').count() as u64;
    assert_eq!(rt; end.line, lines);
    Ok(())
}

#[test]
fn scripts_print_what_they_should(rt: HostRuntime) -> Result<(), Fail> {
    let alloc = rt.alloc();
    for lines in scripts::SCRIPTS.split("\n\n") {
        let mut expected = Expected {
            script: String::new(alloc),
            printed: String::new(alloc),
            refused: String::new(alloc),
        };
        for line in lines.split("\n") {
            push_line(alloc, &mut expected, line)?;
        }
        let script = expected.script.as_bytes();
        let printed = expected.printed.as_str();
        assert_plays(&rt, script, printed, expected.refused.as_str())?;
    }
    Ok(())
}

#[test]
fn lines_that_are_no_text_or_have_no_lf_are_refused(rt: HostRuntime) -> Result<(), Fail> {
    let alloc = rt.alloc();
    assert_plays(&rt, b"", "", "")?;
    assert_plays(&rt, b"\n# a comment\ndaemon 0\n\n", "", "")?;
    let no_move = "the line is no move of the script language";
    assert_plays(&rt, b"daemon 0\n\xff\n", "", no_move)?;
    let (end, written) = replayed(alloc, b"daemon 0\nheld 0\nheld 0")?;
    assert_eq!(rt; end, ReplayEnd::new(Some(ReplayFault::NoLineEnd), 3));
    assert_eq!(rt; written.as_slice(), b"held 0 0\n".as_slice());
    Ok(())
}

#[test]
fn there_are_64_daemons_and_256_editors_at_most(rt: HostRuntime) -> Result<(), Fail> {
    let alloc = rt.alloc();
    let mut daemons = String::new(alloc);
    for daemon in 0..65 {
        daemons.push_str(format!(in alloc; "daemon {daemon}\n")?.as_str())?;
    }
    let mut editors = String::from_str(alloc, "daemon 0\n")?;
    for editor in 0..257 {
        editors.push_str(format!(in alloc; "editor {editor} 0 f \"\"\n")?.as_str())?;
    }
    let refused = "the move is not possible here";
    assert_plays(&rt, daemons.as_bytes(), "", refused)?;
    assert_plays(&rt, editors.as_bytes(), "", refused)
}

#[test]
fn a_frame_may_be_cut_after_each_byte(rt: HostRuntime) -> Result<(), Fail> {
    let alloc = rt.alloc();
    let frame = b"Content-Length: 1\r\n\r\n{";
    let answer = r#"{"error":{"code":-32700,"message":"parse error"},"id":null,"jsonrpc":"2.0"}"#;
    let mut printed = String::new(alloc);
    push_frame(alloc, &mut printed, "told 0 7 ", answer)?;
    push_whole(&mut printed, "held 0 0")?;
    for cut in 1..=frame.len() {
        let mut script = String::from_str(alloc, "daemon 0\nbegin 0 7 editor\nhear 0 7 ")?;
        push_hex(alloc, &mut script, &frame[..cut])?;
        if cut < frame.len() {
            script.push_str("\nhear 0 7 ")?;
            push_hex(alloc, &mut script, &frame[cut..])?;
        }
        script.push_str("\nheld 0\n")?;
        assert_plays(&rt, script.as_bytes(), printed.as_str(), "")?;
    }
    Ok(())
}

#[test]
fn bytes_may_come_and_go_one_at_a_time(rt: HostRuntime) -> Result<(), Fail> {
    let alloc = rt.alloc();
    let mut source = ByteSource(SureSource::new(alloc, blob(alloc, FIRST.as_bytes())?)?);
    let mut sink = ByteSink(SureSink::new(alloc, Blob::empty(alloc)?)?);
    let end = run(alloc, &[], &mut source, &mut sink);
    assert_eq!(rt; (end.status, end.line), (0, 7));
    assert_eq!(rt; sink.0.written(), FIRST_OUTPUT.as_bytes());
    Ok(())
}

/// A sink that fails at its first write.
fn failing_sink(alloc: Global) -> Result<MemSink, AllocError> {
    MemSink::new(alloc, Blob::empty(alloc)?, numbers(alloc, &[1])?)
}

#[test]
fn faults_of_the_outside_and_words_have_their_statuses(rt: HostRuntime) -> Result<(), Fail> {
    let alloc = rt.alloc();
    let bytes = blob(alloc, FIRST.as_bytes())?;
    let mut source = MemSource::new(alloc, bytes, numbers(alloc, &[2])?)?;
    let mut sink = SureSink::new(alloc, Blob::empty(alloc)?)?;
    let end = run(alloc, &[], &mut source, &mut sink);
    assert_eq!(rt; end, ReplayEnd::new(Some(ReplayFault::SourceFailed), 7));
    assert_eq!(rt; sink.written(), FIRST_OUTPUT.as_bytes());
    let mut source = SureSource::new(alloc, blob(alloc, FIRST.as_bytes())?)?;
    let mut sink = failing_sink(alloc)?;
    let words = vec![in alloc; String::from_str(alloc, "x")?]?;
    let end = run(alloc, words.as_slice(), &mut source, &mut sink);
    assert_eq!(rt; end, ReplayEnd::new(Some(ReplayFault::Words), 0));
    let end = run(alloc, &[], &mut source, &mut sink);
    assert_eq!(rt; end, ReplayEnd::new(Some(ReplayFault::SinkFailed), 6));
    assert!(rt; sink.written().is_empty());
    Ok(())
}

#[test]
fn faults_have_statuses_and_texts(rt: HostRuntime) -> Result<(), Fail> {
    for (fault, status, text) in [
        (
            ReplayFault::Words,
            1,
            "there was a word on the command line",
        ),
        (
            ReplayFault::NotAMove,
            2,
            "the line is no move of the script language",
        ),
        (ReplayFault::NotPossible, 2, "the move is not possible here"),
        (ReplayFault::NoLineEnd, 2, "the line has no LF"),
        (
            ReplayFault::SourceFailed,
            4,
            "the script could not be read further",
        ),
        (
            ReplayFault::SinkFailed,
            5,
            "the output could not be written",
        ),
        (ReplayFault::Memory, 6, "out of memory"),
        (ReplayFault::TooLong, 7, "the script is too long"),
    ] {
        assert_eq!(rt; ReplayEnd::new(Some(fault), 3).status, status);
        assert_eq!(rt; format!(in rt.alloc(); "{fault}")?.as_str(), text);
    }
    Ok(())
}
