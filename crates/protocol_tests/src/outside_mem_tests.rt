ghost use Rattle.std.specs.Prelude.{◌<◌, length};

use outside::{Disk, DiskFault, Fault, Gave, Mode, Sink, Source, Stops, Took};
use outside_mem::{MemDisk, MemSink, MemSource, SureDisk, SureSink, SureSource};
use std::alloc::{AllocError, Global};
use std::test::Fail;
use tt_base::{Blob, List};

fn blob(alloc: Global, bytes: &[u8]) -> Result<Blob, AllocError> {
    Ok(Blob::from_vec(Vec::from_slice(alloc, bytes)?))
}

fn numbers(alloc: Global, numbers: &[u64]) -> Result<List<u64>, AllocError> {
    Ok(List::from_vec(Vec::from_slice(alloc, numbers)?))
}

/// Reads through the trait, as generic code does, into a buffer of four places.
fn read_four<S: Source>(source: &mut S) -> (Took, [u8; 4]) {
    let mut buf = [0; 4];
    let took = source.read(&mut buf);
    (took, buf)
}

fn write_to<K: Sink>(alloc: Global, sink: &mut K, piece: &[u8]) -> Gave
    requires { 0 < length piece.now }
{
    sink.write(alloc, piece)
}

#[test]
fn a_source_gives_its_bytes_and_then_its_end(rt: HostRuntime) -> Result<(), Fail> {
    let mut source = MemSource::new(
        rt.alloc(),
        blob(rt.alloc(), b"abc")?,
        numbers(rt.alloc(), &[])?,
    )?;
    assert_eq!(rt; read_four(&mut source), (Took::Bytes(3), *b"abc\0"));
    assert_eq!(rt; read_four(&mut source).0, Took::Ended);
    let mut sure = SureSource::new(rt.alloc(), blob(rt.alloc(), b"abcdef")?)?;
    assert_eq!(rt; read_four(&mut sure), (Took::Bytes(4), *b"abcd"));
    assert_eq!(rt; read_four(&mut sure), (Took::Bytes(2), *b"ef\0\0"));
    assert_eq!(rt; read_four(&mut sure).0, Took::Ended);
    Ok(())
}

#[test]
fn a_source_fails_where_it_is_told_to(rt: HostRuntime) -> Result<(), Fail> {
    let failing = numbers(rt.alloc(), &[2])?;
    let mut source = MemSource::new(rt.alloc(), blob(rt.alloc(), b"abcdef")?, failing)?;
    assert_eq!(rt; read_four(&mut source), (Took::Bytes(4), *b"abcd"));
    assert_eq!(rt; read_four(&mut source).0, Took::Failed);
    assert_eq!(rt; read_four(&mut source), (Took::Bytes(2), *b"ef\0\0"));
    Ok(())
}

#[test]
fn a_sink_holds_what_was_written(rt: HostRuntime) -> Result<(), Fail> {
    let failing = numbers(rt.alloc(), &[1])?;
    let mut sink = MemSink::new(rt.alloc(), blob(rt.alloc(), b"a")?, failing)?;
    assert_eq!(rt; write_to(rt.alloc(), &mut sink, b"bc"), Gave::Failed);
    assert_eq!(rt; write_to(rt.alloc(), &mut sink, b"bc"), Gave::Bytes(2));
    assert_eq!(rt; sink.written(), b"abc".as_slice());
    let mut sure = SureSink::new(rt.alloc(), Blob::empty(rt.alloc())?)?;
    assert_eq!(rt; write_to(rt.alloc(), &mut sure, b"bc"), Gave::Bytes(2));
    assert_eq!(rt; sure.written(), b"bc".as_slice());
    Ok(())
}

#[test]
fn long_contents_come_and_go(rt: HostRuntime) -> Result<(), Fail> {
    let alloc = rt.alloc();
    let mut sink = MemSink::new(alloc, Blob::empty(alloc)?, numbers(alloc, &[])?)?;
    for _ in 0..100 {
        assert_eq!(rt; write_to(alloc, &mut sink, &[b'x'; 50]), Gave::Bytes(50));
    }
    assert_eq!(rt; sink.written().len(), 5_000);
    let mut source = MemSource::new(alloc, blob(alloc, sink.written())?, numbers(alloc, &[])?)?;
    for _ in 0..1_250 {
        assert_eq!(rt; read_four(&mut source), (Took::Bytes(4), *b"xxxx"));
    }
    assert_eq!(rt; read_four(&mut source).0, Took::Ended);
    Ok(())
}

/// Reads a disk whole through the trait.
fn content<D: Disk>(alloc: Global, disk: &mut D) -> Result<Vec<u8>, Fail> {
    let len = disk.len()?;
    let mut bytes = vec![in alloc; 0_u8; len as usize]?;
    disk.read_at(0, bytes.as_mut_slice())?;
    Ok(bytes)
}

/// Writes to a disk through the trait, where the place is not past its end.
fn write<D: Disk>(alloc: Global, disk: &mut D, place: u64, bytes: &[u8]) -> Result<(), DiskFault> {
    match disk.len() {
        Ok(len) if place <= len => disk.write_at(alloc, place, bytes),
        _ => Err(DiskFault::Failed),
    }
}

/// A disk with the ten digits, of which the calls with these numbers fail.
fn digits(alloc: Global, failing: &[u64]) -> Result<MemDisk, AllocError> {
    MemDisk::new(alloc, blob(alloc, b"0123456789")?, numbers(alloc, failing)?)
}

#[test]
fn a_stop_leaves_the_image_of_its_mode(rt: HostRuntime) -> Result<(), Fail> {
    let alloc = rt.alloc();
    let rows: [(Mode, &[u8]); 3] = [
        (Mode::Lost, b"0123456789"),
        (Mode::Kept, b"xyz3abcde9wv"),
        (Mode::Torn, b"x\xa5\xa53ab\xa5\xa5\xa59w\xa5"),
    ];
    for (mode, expected) in rows {
        let mut disk = digits(alloc, &[])?;
        disk.arm(3, mode);
        assert_eq!(rt; write(alloc, &mut disk, 4, b"abcde"), Ok(()));
        assert_eq!(rt; write(alloc, &mut disk, 10, b"wv"), Ok(()));
        assert_eq!(rt; disk.left(), Some(1));
        assert_eq!(rt; write(alloc, &mut disk, 0, b"xyz"), Err(DiskFault::Failed));
        assert_eq!(rt; disk.left(), Some(0));
        assert_eq!(rt; disk.sync(), Err(Fault));
        assert_eq!(rt; disk.len(), Err(Fault));
        disk.restart(alloc)?;
        assert_eq!(rt; disk.left(), None);
        assert_eq!(rt; content(alloc, &mut disk)?.as_slice(), expected);
    }
    Ok(())
}

#[test]
fn a_stop_leaves_what_was_synced(rt: HostRuntime) -> Result<(), Fail> {
    let alloc = rt.alloc();
    for mode in [Mode::Lost, Mode::Kept, Mode::Torn] {
        let mut disk = digits(alloc, &[])?;
        assert_eq!(rt; write(alloc, &mut disk, 4, b"abcde"), Ok(()));
        assert_eq!(rt; disk.sync(), Ok(()));
        disk.arm(1, mode);
        assert_eq!(rt; disk.sync(), Err(Fault));
        disk.restart(alloc)?;
        assert_eq!(rt;
            content(alloc, &mut disk)?.as_slice(),
            b"0123abcde9".as_slice()
        );
    }
    Ok(())
}

#[test]
fn counted_calls_are_writes_and_syncs(rt: HostRuntime) -> Result<(), Fail> {
    let alloc = rt.alloc();
    let mut disk = digits(alloc, &[])?;
    assert_eq!(rt; disk.left(), None);
    disk.arm(2, Mode::Lost);
    assert_eq!(rt; disk.left(), Some(2));
    assert_eq!(rt; content(alloc, &mut disk)?.len(), 10);
    assert_eq!(rt; disk.left(), Some(2));
    assert_eq!(rt; disk.sync(), Ok(()));
    assert_eq!(rt; disk.left(), Some(1));
    assert_eq!(rt; write(alloc, &mut disk, 0, b"a"), Err(DiskFault::Failed));
    disk.arm(1, Mode::Lost);
    assert_eq!(rt; disk.left(), Some(1));
    assert_eq!(rt;
        content(alloc, &mut disk)?.as_slice(),
        b"0123456789".as_slice()
    );
    disk.arm(0, Mode::Lost);
    assert_eq!(rt; disk.len(), Err(Fault));
    Ok(())
}

#[test]
fn calls_fail_by_their_numbers(rt: HostRuntime) -> Result<(), Fail> {
    let alloc = rt.alloc();
    let mut disk = digits(alloc, &[1, 3, 5])?;
    assert_eq!(rt; disk.len(), Err(Fault));
    assert_eq!(rt; write(alloc, &mut disk, 10, b"abc"), Err(DiskFault::Failed));
    assert_eq!(rt; disk.len(), Ok(10));
    assert_eq!(rt; disk.sync(), Err(Fault));
    assert_eq!(rt; write(alloc, &mut disk, 10, b"abc"), Ok(()));
    disk.restart(alloc)?;
    assert_eq!(rt;
        content(alloc, &mut disk)?.as_slice(),
        b"0123456789abc".as_slice()
    );
    Ok(())
}

#[test]
fn a_sure_disk_keeps_what_is_written(rt: HostRuntime) -> Result<(), Fail> {
    let alloc = rt.alloc();
    let mut disk = SureDisk::new(alloc, Blob::empty(alloc)?)?;
    for round in 0..200u64 {
        assert_eq!(rt; write(alloc, &mut disk, round * 2, b"abcd"), Ok(()));
        assert_eq!(rt; disk.sync(), Ok(()));
    }
    assert_eq!(rt; write(alloc, &mut disk, 2, b"xyz"), Ok(()));
    let whole = content(alloc, &mut disk)?;
    assert_eq!(rt; whole.len(), 402);
    assert_eq!(rt; &whole[..8], b"abxyzbab".as_slice());
    assert_eq!(rt; &whole[396..], b"ababcd".as_slice());
    Ok(())
}
