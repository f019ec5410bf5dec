use rpc_frame::{FrameEnd, FrameFault, FrameReader, read_pieces, write_frame};
use std::alloc::{AllocError, Global};
use std::process::Abort;
use std::test::Fail;
use tt_base::{Blob, List};

/// The limit of the daemon, in bytes.
const LIMIT: u64 = 33_554_432;

fn blob(alloc: Global, bytes: &[u8]) -> Result<Blob, AllocError> {
    Ok(Blob::from_vec(Vec::from_slice(alloc, bytes)?))
}

/// The stream in two pieces.
fn in_two(alloc: Global, stream: &[u8], at: usize) -> Result<Vec<Blob>, AllocError> {
    let (front, rest) = stream.split_at(at.min(stream.len()));
    let mut pieces = Vec::new(alloc);
    pieces.push(blob(alloc, front)?)?;
    pieces.push(blob(alloc, rest)?)?;
    Ok(pieces)
}

/// The stream one byte at a time.
fn in_bytes(alloc: Global, stream: &[u8]) -> Result<Vec<Blob>, AllocError> {
    let mut pieces = Vec::new(alloc);
    for byte in stream {
        pieces.push(blob(alloc, &[*byte])?)?;
    }
    Ok(pieces)
}

fn are_bodies(bodies: &List<Blob>, wanted: &[&[u8]]) -> bool {
    bodies.len() == wanted.len()
        && bodies
            .as_slice()
            .iter()
            .zip(wanted)
            .all(|(body, want)| body.as_slice() == *want)
}

/// Whether these pieces are read as these bodies and this fault.
fn is_read(
    alloc: Global,
    pieces: &[Blob],
    wanted: &[&[u8]],
    fault: Option<FrameFault>,
) -> Result<bool, AllocError> {
    let read = read_pieces(alloc, LIMIT, pieces)?;
    Ok(are_bodies(&read.bodies, wanted) && read.fault == fault)
}

/// Reads the stream whole, in single bytes, and cut in two after each `step`-th byte.
fn check(
    rt: &(impl Abort + AllocGlobal),
    step: usize,
    stream: &[u8],
    wanted: &[&[u8]],
    fault: Option<FrameFault>,
) -> Result<(), AllocError> {
    let alloc = rt.alloc();
    assert!(rt;
        is_read(alloc, &in_bytes(alloc, stream)?, wanted, fault)?,
        "in bytes"
    );
    for at in 0..stream.len() {
        if at % step.max(1) == 0 {
            assert!(rt;
                is_read(alloc, &in_two(alloc, stream, at)?, wanted, fault)?,
                "cut at {at}"
            );
        }
    }
    Ok(())
}

#[test]
fn frames_are_read(rt: HostRuntime) -> Result<(), Fail> {
    check(&rt, 1, b"Content-Length: 1\r\n\r\n{", &[b"{"], None)?;
    check(&rt, 1, b"", &[], None)?;
    check(&rt, 1, b"Content-Length: 0\r\n\r\n", &[b""], None)?;
    check(
        &rt,
        1,
        b"CONTENT-length:\t 005 \t\r\n\r\nhelloContent-Length:2\r\nX:\r\n\r\n{}Content-L",
        &[b"hello", b"{}"],
        None,
    )?;
    check(
        &rt,
        1,
        b"Content-Length: 70\r\nContent-Type: application/vscode-jsonrpc; charset=utf-8\r\n\r\n{\"jsonrpc\":\"2.0\",\"id\":1,\"method\":\"open\",\"params\":{\"content\":\"a\\r\\nb\"}}",
        &[
            b"{\"jsonrpc\":\"2.0\",\"id\":1,\"method\":\"open\",\"params\":{\"content\":\"a\\r\\nb\"}}",
        ],
        None,
    )?;
    Ok(())
}

#[test]
fn faults_are_met(rt: HostRuntime) -> Result<(), Fail> {
    check(
        &rt,
        1,
        b"Content-Length: x",
        &[],
        Some(FrameFault::BadHeader(16)),
    )?;
    check(
        &rt,
        1,
        b"Content-Length: 1\r\n\r\n{Content-Length: xContent-Length: 1\r\n\r\n{",
        &[b"{"],
        Some(FrameFault::BadHeader(16)),
    )?;
    check(
        &rt,
        1,
        b"Content-Length: 1\n\n{",
        &[],
        Some(FrameFault::BadHeader(17)),
    )?;
    check(&rt, 1, b"\r\n", &[], Some(FrameFault::BadHeader(0)))?;
    check(
        &rt,
        1,
        b"Content-Length 1\r\n",
        &[],
        Some(FrameFault::BadHeader(16)),
    )?;
    check(
        &rt,
        1,
        b"Content-Length: 1\r\ncontent-LENGTH: 1\r\n\r\n{",
        &[],
        Some(FrameFault::TwoLengths),
    )?;
    check(
        &rt,
        1,
        b"Content-Type: text\r\n\r\n{",
        &[],
        Some(FrameFault::NoLength),
    )?;
    check(
        &rt,
        1,
        b"Content-Length: 33554433\r\n\r\n",
        &[],
        Some(FrameFault::TooLong(33_554_433)),
    )?;
    check(
        &rt,
        1,
        b"Content-Length: 999999999999999999999999999999\r\n\r\n",
        &[],
        Some(FrameFault::TooLong(18_446_744_073_709_551_615)),
    )?;
    Ok(())
}

/// A header part of that many bytes whose second field is filled up, and which gives a body of one byte.
fn long_header(alloc: Global, length: usize) -> Result<Vec<u8>, AllocError> {
    let mut bytes = Vec::from_slice(alloc, b"Content-Length: 1\r\nX:")?;
    for _ in 0..length.saturating_sub(25) {
        bytes.push(b'y')?;
    }
    bytes.extend_from_slice(b"\r\n\r\n{")?;
    Ok(bytes)
}

#[test]
fn a_header_part_has_8192_bytes_at_most(rt: HostRuntime) -> Result<(), Fail> {
    let whole = long_header(rt.alloc(), 8192)?;
    assert_eq!(rt; whole.len(), 8193);
    check(&rt, 911, whole.as_slice(), &[b"{"], None)?;
    let longer = long_header(rt.alloc(), 8193)?;
    check(
        &rt,
        911,
        longer.as_slice(),
        &[],
        Some(FrameFault::BadHeader(8188)),
    )?;
    Ok(())
}

#[test]
fn a_fault_closes_the_reader(rt: HostRuntime) -> Result<(), Fail> {
    let alloc = rt.alloc();
    let mut reader = FrameReader::new(alloc, LIMIT)?;
    let first = reader.feed(alloc, b"Content-Length: 1\r\n\r\n{Content-Length: x");
    assert!(rt; matches!(&first, Err(FrameEnd::BadHeader(16))));
    let _ = first;
    let closed = reader.feed(alloc, b"Content-Length: 1\r\n\r\n{");
    assert!(rt; matches!(&closed, Err(FrameEnd::Closed(FrameFault::BadHeader(16)))));
    let _ = closed;
    assert!(rt; are_bodies(&reader.take_done(), &[b"{"]));
    assert!(rt; reader.take_done().is_empty());
    Ok(())
}

#[test]
fn a_written_frame_is_read(rt: HostRuntime) -> Result<(), Fail> {
    let body =
        b"{\"error\":{\"code\":-32700,\"message\":\"parse error\"},\"id\":null,\"jsonrpc\":\"2.0\"}";
    let frame = write_frame(rt.alloc(), body)?;
    assert_eq!(rt; frame.len(), 97);
    assert!(rt; frame.as_slice().starts_with(b"Content-Length: 75\r\n\r\n{"));
    check(&rt, 1, frame.as_slice(), &[body], None)?;
    Ok(())
}

#[test]
fn many_long_frames_are_read(rt: HostRuntime) -> Result<(), Fail> {
    let alloc = rt.alloc();
    let body = vec![in alloc; b'{'; 5_000]?;
    let frame = write_frame(alloc, body.as_slice())?;
    assert_eq!(rt; frame.len(), 5_024);
    for count in [3, 100] {
        let mut stream = Vec::new(alloc);
        for _ in 0..count {
            stream.extend_from_slice(frame.as_slice())?;
        }
        let pieces = in_two(alloc, stream.as_slice(), 7_000)?;
        let read = read_pieces(alloc, LIMIT, pieces.as_slice())?;
        assert!(rt; read.fault.is_none());
        assert_eq!(rt; read.bodies.len(), count);
        for read_body in read.bodies.as_slice() {
            assert!(rt; read_body.as_slice() == body.as_slice());
        }
    }
    Ok(())
}

#[test]
fn faults_have_texts(rt: HostRuntime) -> Result<(), Fail> {
    for (fault, text) in [
        (FrameFault::BadHeader(16), "bad header at byte 16"),
        (FrameFault::NoLength, "no Content-Length"),
        (FrameFault::TwoLengths, "more than one Content-Length"),
        (FrameFault::TooLong(9), "body of 9 bytes is too long"),
    ] {
        assert_eq!(rt; format!(in rt.alloc(); "{fault}")?.as_str(), text);
        let end = FrameEnd::from(fault);
        assert_eq!(rt; format!(in rt.alloc(); "{end}")?.as_str(), text);
    }
    for (end, text) in [
        (
            FrameEnd::Closed(FrameFault::NoLength),
            "closed after a fault: no Content-Length",
        ),
        (FrameEnd::Memory, "out of memory"),
    ] {
        assert_eq!(rt; format!(in rt.alloc(); "{end}")?.as_str(), text);
    }
    Ok(())
}
