use byte_format::Kind;
use change_codec::{BadEncoding, name_of, read_change, write_change};
use std::process::Abort;
use std::test::Fail;

/// The mark, an actor and its number.
const FRONT: &str = "54544331000000000000000000000000000000010000000000000001";

const NONE: &str = "0000000000000000";

const ONE: &str = "0000000000000001";

const TWO: &str = "0000000000000002";

const THREE: &str = "0000000000000003";

const MANY: &str = "ffffffffffffffff";
/// A name, and a greater one.
const LESSER: &str = "0000000000000000000000000000000000000000000000000000000000000000";

const GREATER: &str = "0000000000000000000000000000000000000000000000000000000000000001";
/// An operation that makes a file at `f`.
const MAKE: &str = "01000166";
/// A ref to the first thing that the change makes.
const HERE: &str = "000000000000000000";
/// The digest of the first row, by sha256sum.
const DIGEST: &str = "9c4acef88942efa04449c7f6c0c74534577e45bc88c21300d846e1385cb1d46a";

/// The bytes that the pieces write in hexadecimal digits, one behind the other.
fn bytes_of(rt: &(impl Abort + AllocGlobal), pieces: &[&str]) -> Result<Vec<u8>, Fail> {
    let mut bytes = Vec::new(rt.alloc());
    for piece in pieces {
        bytes.extend_from_slice(hex::decode(rt.alloc(), piece)?.as_slice())?;
    }
    Ok(bytes)
}

/// What reading the bytes gives; what is read is written as the same bytes, also from a copy.
fn reads_as(
    rt: &(impl Abort + AllocGlobal),
    bytes: &[u8],
    expected: Result<(), BadEncoding>,
) -> Result<(), Fail> {
    match read_change(rt.alloc(), bytes) {
        Ok(change) => {
            assert_eq!(rt; expected, Ok(()));
            let copy = change.copied(rt.alloc())?;
            assert_eq!(rt; write_change(rt.alloc(), &change)?.as_slice(), bytes);
            assert_eq!(rt; write_change(rt.alloc(), &copy)?.as_slice(), bytes);
        }
        Err(fault) => assert_eq!(rt; expected, Err(fault)),
    }
    Ok(())
}

#[test]
fn bytes_are_a_change_or_outside_at_their_first_bad_field(rt: HostRuntime) -> Result<(), Fail> {
    let at = |place, kind| Err(BadEncoding::At(place, kind));
    let rows: [(&[&str], Result<(), BadEncoding>); 24] = [
        (
            &[FRONT, NONE, TWO, MAKE, "03", HERE, "00", TWO, "6162"],
            Ok(()),
        ),
        (
            &[FRONT, NONE, TWO, MAKE, "03", HERE, "00", TWO, "616207"],
            at(69, Kind::Rest),
        ),
        (&[FRONT, NONE, NONE, "07"], at(44, Kind::Rest)),
        (&["545443"], at(0, Kind::Short)),
        (&[""], at(0, Kind::Short)),
        (
            &[FRONT, NONE, TWO, MAKE, "03", HERE, "00", TWO, "61"],
            at(67, Kind::Short),
        ),
        (&["54544332"], at(0, Kind::Magic)),
        (&[FRONT, TWO, LESSER, GREATER, NONE], Ok(())),
        (&[FRONT, TWO, LESSER, LESSER, NONE], at(68, Kind::Order)),
        (
            &[FRONT, THREE, LESSER, GREATER, LESSER, NONE],
            at(100, Kind::Order),
        ),
        (&[FRONT, MANY, LESSER], at(68, Kind::Short)),
        (&[FRONT, NONE, MANY], at(44, Kind::Short)),
        (&[FRONT, NONE, ONE, "00"], at(44, Kind::Tag)),
        (&[FRONT, NONE, ONE, "05"], at(44, Kind::Tag)),
        (&[FRONT, NONE, ONE, "0202"], at(45, Kind::Tag)),
        (&[FRONT, NONE, ONE, "03", HERE, "02"], at(54, Kind::Tag)),
        (&[FRONT, NONE, ONE, "04", HERE, "02"], at(54, Kind::Tag)),
        (&[FRONT, NONE, ONE, "010000"], at(47, Kind::Path)),
        (&[FRONT, NONE, ONE, "010001ff"], at(47, Kind::Path)),
        (&[FRONT, NONE, ONE, "0100042e676974"], at(47, Kind::Path)),
        (
            &[FRONT, NONE, ONE, "03", HERE, "00", ONE, "ff"],
            at(63, Kind::Utf8),
        ),
        (
            &[FRONT, NONE, ONE, "03", HERE, "00", NONE],
            at(55, Kind::Zero),
        ),
        (
            &[FRONT, NONE, ONE, "04", HERE, HERE, NONE],
            at(63, Kind::Zero),
        ),
        (
            &[FRONT, NONE, ONE, "03", HERE, "00", MANY, "61"],
            at(63, Kind::Short),
        ),
    ];
    for (pieces, expected) in rows {
        reads_as(&rt, bytes_of(&rt, pieces)?.as_slice(), expected)?;
    }
    Ok(())
}

#[test]
fn a_change_of_each_kind_of_operation_comes_back(rt: HostRuntime) -> Result<(), Fail> {
    let there = ["01", GREATER, TWO].concat(rt.alloc())?;
    let deleted = ["04", HERE, there.as_str(), MANY].concat(rt.alloc())?;
    let long = "c3a4".repeat(rt.alloc(), 128)?;
    let pieces = [
        FRONT,
        TWO,
        LESSER,
        GREATER,
        "0000000000000004",
        MAKE,
        "02",
        there.as_str(),
        "03",
        there.as_str(),
        "01",
        HERE,
        "0000000000000100",
        long.as_str(),
        deleted.as_str(),
    ];
    reads_as(&rt, bytes_of(&rt, &pieces)?.as_slice(), Ok(()))
}

#[test]
fn the_name_is_the_digest_of_the_encoding(rt: HostRuntime) -> Result<(), Fail> {
    let bytes = bytes_of(
        &rt,
        &[FRONT, NONE, TWO, MAKE, "03", HERE, "00", TWO, "6162"],
    )?;
    let name = name_of(bytes.as_slice());
    assert_eq!(rt;
        hex::encode(rt.alloc(), name.0.as_slice())?.as_str(),
        DIGEST
    );
    Ok(())
}

#[test]
fn a_fault_says_where_and_why(rt: HostRuntime) -> Result<(), Fail> {
    let at = BadEncoding::At(67, Kind::Utf8);
    assert_eq!(rt;
        format!(in rt.alloc(); "{at}")?.as_str(),
        "no change: byte 67: not UTF-8"
    );
    let memory = BadEncoding::Memory;
    assert_eq!(rt;
        format!(in rt.alloc(); "{memory}")?.as_str(),
        "out of memory"
    );
    Ok(())
}
