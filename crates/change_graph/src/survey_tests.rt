use crate::causes::{Cause, OpFault};
use crate::nodes::Nodes;
use crate::places::Place;
use crate::survey::first_fault;
use change_codec::{Change, read_change};
use std::collections::BTreeSet;
use std::process::Abort;
use std::test::Fail;
use tt_base::Name;

/// The mark, an actor, its number, and no dependencies.
const FRONT: &[u8] = b"TTC1\0\0\0\0\0\0\0\0\0\0\0\0\0\0\0\0\0\0\0\0\0\0\0\x01\0\0\0\0\0\0\0\0";

/// Four operations: a file at 0, two characters of it at 1 and 2, another file at 3, and one that is given.
const FILES: &[u8] =
    b"\0\0\0\0\0\0\0\x04\x01\0\x01f\x03\0\0\0\0\0\0\0\0\0\0\0\0\0\0\0\0\0\x02ab\x01\0\x01g";

/// One operation.
const ALONE: &[u8] = b"\0\0\0\0\0\0\0\x01";

const REMOVE: &[u8] = b"\x02";

const INSERT: &[u8] = b"\x03";

const DELETE: &[u8] = b"\x04";

/// What is inserted: a character at the root, and one behind a ref.
const AT_ROOT: &[u8] = b"\0\0\0\0\0\0\0\0\x01c";

const AFTER: &[u8] = b"\x01";

const TEXT: &[u8] = b"\0\0\0\0\0\0\0\x01c";

const HERE: &[u8] = b"\0";
/// A ref into a change that is held.
const THERE: &[u8] =
    b"\x01\x07\x07\x07\x07\x07\x07\x07\x07\x07\x07\x07\x07\x07\x07\x07\x07\x07\x07\x07\x07\x07\x07\x07\x07\x07\x07\x07\x07\x07\x07\x07\x07";
/// A ref into one that is not.
const NOWHERE: &[u8] =
    b"\x01\x08\x07\x07\x07\x07\x07\x07\x07\x07\x07\x07\x07\x07\x07\x07\x07\x07\x07\x07\x07\x07\x07\x07\x07\x07\x07\x07\x07\x07\x07\x07\x07";

const ZERO: &[u8] = b"\0\0\0\0\0\0\0\0";

const ONE: &[u8] = b"\0\0\0\0\0\0\0\x01";

const TWO: &[u8] = b"\0\0\0\0\0\0\0\x02";

const THREE: &[u8] = b"\0\0\0\0\0\0\0\x03";

const FOUR: &[u8] = b"\0\0\0\0\0\0\0\x04";

const MOST: &[u8] = b"\xff\xff\xff\xff\xff\xff\xff\xff";

/// The change with these operations.
fn change_of(
    rt: &(impl Abort + AllocGlobal),
    ops: &[u8],
    pieces: &[&[u8]],
) -> Result<Change, Fail> {
    let mut bytes = Vec::from_slice(rt.alloc(), FRONT)?;
    bytes.extend_from_slice(ops)?;
    for piece in pieces {
        bytes.extend_from_slice(piece)?;
    }
    Ok(read_change(rt.alloc(), bytes.as_slice())?)
}

/// The change that is held.
fn held(rt: &(impl Abort + AllocGlobal)) -> Result<Nodes, Fail> {
    let mut nodes = Nodes::empty(rt.alloc());
    let change = change_of(rt, FILES, &[REMOVE, HERE, ZERO])?;
    nodes.insert(rt.alloc(), Name([7; 32]), change, 1)?;
    Ok(nodes)
}

/// What is told of an operation behind three others: this cause, or that none is refused.
fn refuses(
    rt: &(impl Abort + AllocGlobal),
    pieces: &[&[u8]],
    cause: Option<Cause>,
) -> Result<(), Fail> {
    let change = change_of(rt, FILES, pieces)?;
    let nodes = Nodes::empty(rt.alloc());
    let outside = BTreeSet::new(rt.alloc());
    let fault = first_fault(rt.alloc(), &nodes, &outside, &change)?;
    assert_eq!(rt; fault, cause.map(|cause| OpFault { place: 3, cause }));
    Ok(())
}

#[test]
fn each_cause_alone(rt: HostRuntime) -> Result<(), Fail> {
    refuses(&rt, &[INSERT, HERE, THREE, AT_ROOT], None)?;
    refuses(&rt, &[DELETE, HERE, ZERO, HERE, ONE, TWO], None)?;
    refuses(&rt, &[INSERT, HERE, FOUR, AT_ROOT], Some(Cause::OutsideRef))?;
    refuses(&rt, &[REMOVE, HERE, TWO], Some(Cause::NotAMake))?;
    let behind_an_object = [INSERT, HERE, ZERO, AFTER, HERE, ZERO, TEXT];
    refuses(&rt, &behind_an_object, Some(Cause::NotAnElement))?;
    let of_another = [INSERT, HERE, THREE, AFTER, HERE, ONE, TEXT];
    refuses(&rt, &of_another, Some(Cause::OtherObject))
}

#[test]
fn the_first_of_two_causes(rt: HostRuntime) -> Result<(), Fail> {
    let both = [DELETE, HERE, ONE, HERE, FOUR, ONE];
    refuses(&rt, &both, Some(Cause::OutsideRef))?;
    let past_the_end = [DELETE, HERE, ZERO, HERE, TWO, THREE];
    refuses(&rt, &past_the_end, Some(Cause::OutsideRef))?;
    let past_all_indices = [DELETE, HERE, ZERO, HERE, ONE, MOST];
    refuses(&rt, &past_all_indices, Some(Cause::OutsideRef))?;
    let both = [DELETE, HERE, ONE, HERE, ZERO, ONE];
    refuses(&rt, &both, Some(Cause::NotAMake))?;
    let both = [DELETE, HERE, THREE, HERE, ONE, THREE];
    refuses(&rt, &both, Some(Cause::NotAnElement))
}

/// The same of an operation that is the only one of its change.
fn refuses_alone(
    rt: &(impl Abort + AllocGlobal),
    outside: &BTreeSet<Place>,
    pieces: &[&[u8]],
    cause: Option<Cause>,
) -> Result<(), Fail> {
    let change = change_of(rt, ALONE, pieces)?;
    let fault = first_fault(rt.alloc(), &held(rt)?, outside, &change)?;
    assert_eq!(rt; fault, cause.map(|cause| OpFault { place: 0, cause }));
    Ok(())
}

#[test]
fn refs_into_changes_that_are_held(rt: HostRuntime) -> Result<(), Fail> {
    let mut outside = BTreeSet::new(rt.alloc());
    let fine = [DELETE, THERE, ZERO, THERE, ONE, TWO];
    refuses_alone(&rt, &outside, &fine, None)?;
    let of_another = [DELETE, THERE, THREE, THERE, TWO, ONE];
    refuses_alone(&rt, &outside, &of_another, Some(Cause::OtherObject))?;
    let unknown = [REMOVE, NOWHERE, ZERO];
    refuses_alone(&rt, &outside, &unknown, Some(Cause::OutsideRef))?;
    let own = [INSERT, HERE, ZERO, AT_ROOT];
    refuses_alone(&rt, &outside, &own, Some(Cause::OutsideRef))?;
    outside.insert(Place {
        depth: 1,
        name: Name([7; 32]),
    })?;
    refuses_alone(&rt, &outside, &fine, Some(Cause::OutsideRef))
}

#[test]
fn a_cause_says_what_is_wrong(rt: HostRuntime) -> Result<(), Fail> {
    let cause = Cause::OtherObject;
    assert_eq!(rt;
        format!(in rt.alloc(); "{cause}")?.as_str(),
        "what it names is a character of another object"
    );
    let cause = Cause::NotAMake;
    assert_eq!(rt;
        format!(in rt.alloc(); "{cause}")?.as_str(),
        "what it names as an object is none"
    );
    Ok(())
}
