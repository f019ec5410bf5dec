ghost use Rattle.journal_format.specs.Encoding.{HoldsEncoding};

use change_codec::{read_change, write_change};
use journal_format::{BadGroups, Known, Note, Record, read_groups, record_kinds, write_group};
use std::process::Abort;
use std::test::Fail;
use tt_base::{Actor, Blob, SharedPath};

/// An open gate, 25 bytes of records, and the record of an actor of 16 bytes.
const ACTOR: &str = "01000000000000001901000000000000001000000000000000000000000000000001";

/// The same behind its gate.
const ACTOR_GROUP: &str = "000000000000001901000000000000001000000000000000000000000000000001";

/// The record alone.
const ACTOR_RECORD: &str = "01000000000000001000000000000000000000000000000001";

const CLOSED: &str = "00";

/// The encoding of a change that makes a file at `f` and inserts `ab`.
const CHANGE: &str =
    "545443310000000000000000000000000000000100000000000000010000000000000000000000000000000201000166030000000000000000000000000000000000026162";

/// The bytes that the pieces write in hexadecimal digits, one behind the other.
fn bytes_of(rt: &(impl Abort + AllocGlobal), pieces: &[&str]) -> Result<Vec<u8>, Fail> {
    let mut bytes = Vec::new(rt.alloc());
    for piece in pieces {
        bytes.extend_from_slice(hex::decode(rt.alloc(), piece)?.as_slice())?;
    }
    Ok(bytes)
}

/// How many records the bytes behind a mark have, and where the closed gate is.
fn size_of(rt: &(impl Abort + AllocGlobal), bytes: &[u8]) -> Result<(usize, u64), BadGroups> {
    if bytes.is_empty() {
        return Err(BadGroups::Memory);
    }
    let contents = read_groups(rt.alloc(), bytes)?;
    Ok((contents.records.len(), contents.end))
}

#[test]
fn bytes_stand_for_records_or_a_gate_is_bad(rt: HostRuntime) -> Result<(), Fail> {
    let rows: [(&[&str], Result<(usize, u64), BadGroups>); 10] = [
        (&[CLOSED], Ok((0, 4))),
        (&["02", ACTOR], Ok((0, 4))),
        (&[ACTOR, CLOSED], Ok((1, 38))),
        (&[ACTOR, "ff", ACTOR, "01"], Ok((1, 38))),
        (&[ACTOR], Err(BadGroups::BadRecord(4))),
        (
            &["010000000000000000", CLOSED],
            Err(BadGroups::BadRecord(4)),
        ),
        (
            &["010000000000000001", CLOSED],
            Err(BadGroups::BadRecord(4)),
        ),
        (&[ACTOR, ACTOR, CLOSED], Err(BadGroups::BadRecord(38))),
        (&[ACTOR, "01", CLOSED], Err(BadGroups::BadRecord(38))),
        (
            &["01000000000000000d030000000000000004000166", "00", CLOSED],
            Err(BadGroups::BadRecord(4)),
        ),
    ];
    for (pieces, expected) in rows {
        let bytes = bytes_of(&rt, pieces)?;
        assert_eq!(rt; size_of(&rt, bytes.as_slice()), expected);
    }
    Ok(())
}

#[test]
fn a_group_cut_at_any_byte_is_bad(rt: HostRuntime) -> Result<(), Fail> {
    let bytes = bytes_of(&rt, &[ACTOR, CLOSED])?;
    for cut in 1..bytes.len() {
        assert_eq!(rt; size_of(&rt, &bytes[..cut]), Err(BadGroups::BadRecord(4)));
    }
    assert_eq!(rt; size_of(&rt, bytes.as_slice()), Ok((1, 38)));
    Ok(())
}

/// The group of an actor's record and the front of another record, with a closed gate.
fn cut_record(
    rt: &(impl Abort + AllocGlobal),
    record: &[u8],
    cut: usize,
) -> Result<Result<(usize, u64), BadGroups>, Fail> {
    if record.len() < cut {
        return Ok(Err(BadGroups::Memory));
    }
    let mut bytes = Vec::from_slice(rt.alloc(), &[1])?;
    bytes.extend_from_slice(&25_u64.saturating_add(cut as u64).to_be_bytes())?;
    bytes.extend_from_slice(bytes_of(rt, &[ACTOR_RECORD])?.as_slice())?;
    bytes.extend_from_slice(&record[..cut])?;
    bytes.push(0)?;
    Ok(size_of(rt, bytes.as_slice()))
}

/// A record behind the actor's is good as a whole and bad at each cut.
fn is_bad_where_cut(rt: &(impl Abort + AllocGlobal), pieces: &[&str]) -> Result<(), Fail> {
    let record = bytes_of(rt, pieces)?;
    for cut in 1..record.len() {
        assert_eq!(rt;
            cut_record(rt, record.as_slice(), cut)?,
            Err(BadGroups::BadRecord(4))
        );
    }
    let end = 38 + record.len() as u64;
    assert_eq!(rt;
        cut_record(rt, record.as_slice(), record.len())?,
        Ok((2, end))
    );
    Ok(())
}

#[test]
fn a_change_cut_at_any_byte_is_bad(rt: HostRuntime) -> Result<(), Fail> {
    is_bad_where_cut(&rt, &["020000000000000045", CHANGE])
}

#[test]
fn a_note_cut_at_any_byte_is_bad(rt: HostRuntime) -> Result<(), Fail> {
    is_bad_where_cut(&rt, &["03000000000000000400016600"])?;
    is_bad_where_cut(&rt, &["0300000000000000050001660100"])?;
    is_bad_where_cut(&rt, &["030000000000000006000166020000"])
}

/// What stands as a whole behind the actor's record is no record there.
fn is_bad_as_a_whole(rt: &(impl Abort + AllocGlobal), bytes: &str) -> Result<(), Fail> {
    let record = bytes_of(rt, &[bytes])?;
    assert_eq!(rt;
        cut_record(rt, record.as_slice(), record.len())?,
        Err(BadGroups::BadRecord(4))
    );
    Ok(())
}

#[test]
fn an_actor_behind_another_record_is_bad(rt: HostRuntime) -> Result<(), Fail> {
    is_bad_as_a_whole(&rt, "01000000000000001000000000000000000000000000000001")
}

#[test]
fn a_change_whose_bytes_encode_none_is_bad(rt: HostRuntime) -> Result<(), Fail> {
    is_bad_as_a_whole(&rt, "020000000000000003545443")
}

/// Records of each kind, the actor's first.
fn some_records(rt: &(impl Abort + AllocGlobal)) -> Result<Vec<Record>, Fail> {
    let alloc = rt.alloc();
    let mut records = Vec::new(alloc);
    records.push(Record::Actor(Actor([7; 16])))?;
    records.push(Record::Change(Blob::from_vec(bytes_of(rt, &[CHANGE])?)))?;
    for note in [
        Note::Open,
        Note::One(Known::Absent),
        Note::Two(Known::Digest([1; 32]), Known::Digest([2; 32])),
    ] {
        let path = SharedPath::read(alloc, "a/ä").ok().ok_or("no path")?;
        records.push(Record::Note(path, note))?;
    }
    Ok(records)
}

/// What stands behind the gate of a group with one record.
fn written(rt: &(impl Abort + AllocGlobal), entry: Record) -> Result<Vec<u8>, Fail>
    requires { HoldsEncoding entry }
{
    let group = [entry];
    Ok(write_group(rt.alloc(), group.as_slice())?)
}

#[test]
fn a_group_is_written_behind_its_gate(rt: HostRuntime) -> Result<(), Fail> {
    let mut actor = [0; 16];
    actor[15] = 1;
    let bytes = written(&rt, Record::Actor(Actor(actor)))?;
    let expected = bytes_of(&rt, &[ACTOR_GROUP, CLOSED])?;
    assert_eq!(rt; bytes.as_slice(), expected.as_slice());
    let path = SharedPath::read(rt.alloc(), "f").ok().ok_or("no path")?;
    let bytes = written(&rt, Record::Note(path, Note::One(Known::Absent)))?;
    let expected = bytes_of(
        &rt,
        &["000000000000000e0300000000000000050001660100", CLOSED],
    )?;
    assert_eq!(rt; bytes.as_slice(), expected.as_slice());
    Ok(())
}

#[test]
fn a_change_is_written_by_its_encoding(rt: HostRuntime) -> Result<(), Fail> {
    let alloc = rt.alloc();
    let encoding = bytes_of(&rt, &[CHANGE])?;
    let change = read_change(alloc, encoding.as_slice())
        .ok()
        .ok_or("no change")?;
    let bytes = written(&rt, Record::Change(write_change(alloc, &change)?))?;
    let expected = bytes_of(&rt, &["000000000000004e020000000000000045", CHANGE, CLOSED])?;
    assert_eq!(rt; bytes.as_slice(), expected.as_slice());
    Ok(())
}

#[test]
fn copies_are_equal_and_of_the_same_kind(rt: HostRuntime) -> Result<(), Fail> {
    for entry in &some_records(&rt)? {
        let copy = entry.copied(rt.alloc())?;
        assert!(rt; copy == *entry);
        assert_eq!(rt; copy.kind(), entry.kind());
    }
    Ok(())
}

#[test]
fn kinds_have_words(rt: HostRuntime) -> Result<(), Fail> {
    for (number, word) in [(1, "actor"), (2, "change"), (3, "note")] {
        assert_eq!(rt; record_kinds().find_word(word), Some(number));
        assert_eq!(rt; record_kinds().find_number(number), Some(word));
    }
    assert_eq!(rt; record_kinds().find_word("group"), None);
    Ok(())
}

#[test]
fn a_fault_says_where(rt: HostRuntime) -> Result<(), Fail> {
    let rows = [
        (
            BadGroups::BadRecord(38),
            "the group at byte 38 is no group of records",
        ),
        (BadGroups::Memory, "out of memory"),
    ];
    for (fault, text) in rows {
        assert_eq!(rt; format!(in rt.alloc(); "{fault}")?.as_str(), text);
    }
    Ok(())
}
