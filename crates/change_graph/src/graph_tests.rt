use super::*;
use change_codec::{Change, name_of, read_change, write_change};
use std::process::Abort;
use std::test::Fail;
use tt_base::{List, Name};

/// The mark and an actor.
const FRONT: &[u8] = b"TTC1\0\0\0\0\0\0\0\0\0\0\0\0\0\0\0\x01";

const NO_OPS: &[u8] = b"\0\0\0\0\0\0\0\0";
/// A file is made.
const MAKES: &[u8] = b"\0\0\0\0\0\0\0\x01\x01\0\x01f";
/// A character is inserted into what the same change makes first.
const INSERTS: &[u8] = b"\0\0\0\0\0\0\0\x01\x03\0\0\0\0\0\0\0\0\0\0\0\0\0\0\0\0\0\x01c";
/// What the change with the name behind this makes first is removed.
const REMOVES: &[u8] = b"\0\0\0\0\0\0\0\x01\x02\x01";

const NOWHERE: Name = Name([0; 32]);

/// The change with this number, these dependencies and these operations.
fn change_of(
    rt: &(impl Abort + AllocGlobal),
    seq: u8,
    deps: &[Name],
    ops: &[u8],
) -> Result<Change, Fail> {
    let mut bytes = Vec::from_slice(rt.alloc(), FRONT)?;
    bytes.extend_from_slice(&u64::from(seq).to_be_bytes())?;
    bytes.extend_from_slice(&(deps.len() as u64).to_be_bytes())?;
    for dep in deps {
        bytes.extend_from_slice(&dep.0)?;
    }
    bytes.extend_from_slice(ops)?;
    Ok(read_change(rt.alloc(), bytes.as_slice())?)
}

/// Adds such a change, and gives its name.
fn add_one(
    rt: &(impl Abort + AllocGlobal),
    graph: &mut Graph,
    seq: u8,
    deps: &[Name],
    ops: &[u8],
) -> Result<Name, Fail> {
    let change = change_of(rt, seq, deps, ops)?;
    let name = name_of(write_change(rt.alloc(), &change)?.as_slice());
    assert_eq!(rt; graph.add(rt.alloc(), change)?, AddNote::Added);
    Ok(name)
}

/// Two names in order.
fn rising(one: Name, other: Name) -> [Name; 2] {
    if one.is_before(&other) {
        [one, other]
    } else {
        [other, one]
    }
}

/// A change, two that depend on it, and one that depends on both.
#[derive(Drop)]
struct Diamond {
    graph: Graph,
    first: Name,
    sides: [Name; 2],
    last: Name,
}

fn make_diamond(rt: &(impl Abort + AllocGlobal)) -> Result<Diamond, Fail> {
    let mut graph = Graph::new(rt.alloc());
    let first = add_one(rt, &mut graph, 1, &[], MAKES)?;
    let one = add_one(rt, &mut graph, 2, &[first], NO_OPS)?;
    let other = add_one(rt, &mut graph, 3, &[first], NO_OPS)?;
    let sides = rising(one, other);
    assert_eq!(rt; graph.heads(rt.alloc())?.as_slice(), sides.as_slice());
    let last = add_one(rt, &mut graph, 4, &sides, NO_OPS)?;
    Ok(Diamond {
        graph,
        first,
        sides,
        last,
    })
}

#[test]
fn depths_and_heads_of_a_diamond(rt: HostRuntime) -> Result<(), Fail> {
    let Diamond {
        graph,
        first,
        sides,
        last,
    } = make_diamond(&rt)?;
    assert_eq!(rt; graph.count(), 4);
    assert_eq!(rt; graph.depth(&first), Some(1));
    assert_eq!(rt; graph.depth(&sides[1]), Some(2));
    assert_eq!(rt; graph.depth(&last), Some(3));
    assert_eq!(rt; graph.depth(&NOWHERE), None);
    assert_eq!(rt; graph.heads(rt.alloc())?.as_slice(), [last].as_slice());
    Ok(())
}

#[test]
fn ancestors_in_a_diamond(rt: HostRuntime) -> Result<(), Fail> {
    let Diamond {
        graph,
        first,
        sides,
        last,
    } = make_diamond(&rt)?;
    assert!(rt; graph.is_ancestor(rt.alloc(), &first, &last)?);
    assert!(rt; !graph.is_ancestor(rt.alloc(), &last, &first)?);
    assert!(rt; !graph.is_ancestor(rt.alloc(), &sides[0], &sides[1])?);
    assert!(rt; !graph.is_ancestor(rt.alloc(), &last, &last)?);
    assert!(rt; graph.holds(&first) && !graph.holds(&NOWHERE));
    assert_eq!(rt;
        graph.change(&last).map(|change| change.deps().len()),
        Some(2)
    );
    assert!(rt; graph.change(&NOWHERE).is_none());
    Ok(())
}

#[test]
fn what_is_between_comes_in_order(rt: HostRuntime) -> Result<(), Fail> {
    let Diamond {
        graph,
        first,
        sides,
        last,
    } = make_diamond(&rt)?;
    let all = graph.between(rt.alloc(), &[last, NOWHERE], &[NOWHERE])?;
    assert_eq!(rt;
        all.as_slice(),
        [first, sides[0], sides[1], last].as_slice()
    );
    let rest = graph.between(rt.alloc(), &[last], &[sides[1]])?;
    assert_eq!(rt; rest.as_slice(), [sides[0], last].as_slice());
    let none = graph.between(rt.alloc(), &[first], &[last])?;
    assert!(rt; none.is_empty());
    Ok(())
}

/// Whether it is this name that is missing, and no other.
fn lacks_just(answer: &Result<AddNote, GraphFault>, name: &Name) -> bool {
    match answer {
        Err(GraphFault::MissingDeps(names)) => names.as_slice() == [*name].as_slice(),
        _ => false,
    }
}

#[test]
fn a_change_comes_again_or_too_early(rt: HostRuntime) -> Result<(), Fail> {
    let Diamond {
        mut graph,
        first,
        sides: _,
        last: _,
    } = make_diamond(&rt)?;
    let again = change_of(&rt, 1, &[], MAKES)?;
    assert_eq!(rt; graph.add(rt.alloc(), again)?, AddNote::Repeat);
    let early = change_of(&rt, 5, &rising(NOWHERE, first), INSERTS)?;
    let answer = graph.add(rt.alloc(), early);
    assert!(rt; lacks_just(&answer, &NOWHERE));
    assert_eq!(rt; graph.count(), 4);
    Ok(())
}

/// The place and the cause for which the graph refuses the change.
fn refusal_of(
    rt: &(impl Abort + AllocGlobal),
    graph: &mut Graph,
    change: Change,
) -> Option<(usize, Cause)> {
    match graph.add(rt.alloc(), change) {
        Err(GraphFault::BadChange(place, cause)) => Some((place, cause)),
        _ => None,
    }
}

#[test]
fn a_change_speaks_of_what_it_depends_on(rt: HostRuntime) -> Result<(), Fail> {
    let mut graph = Graph::new(rt.alloc());
    let outside = Some((0, Cause::OutsideRef));
    let inserts = change_of(&rt, 1, &[], INSERTS)?;
    assert_eq!(rt; refusal_of(&rt, &mut graph, inserts), outside);
    let made = add_one(&rt, &mut graph, 1, &[], MAKES)?;
    let mut ops = Vec::from_slice(rt.alloc(), REMOVES)?;
    ops.extend_from_slice(&made.0)?;
    ops.extend_from_slice(&[0; 8])?;
    let unaware = change_of(&rt, 2, &[], ops.as_slice())?;
    assert_eq!(rt; refusal_of(&rt, &mut graph, unaware), outside);
    let _removed = add_one(&rt, &mut graph, 2, &[made], ops.as_slice())?;
    Ok(())
}

#[test]
fn a_refusal_says_what_is_wrong(rt: HostRuntime) -> Result<(), Fail> {
    let bad = GraphFault::BadChange(2, Cause::NotAMake);
    assert_eq!(rt;
        format!(in rt.alloc(); "{bad}")?.as_str(),
        "operation 2: what it names as an object is none"
    );
    let lacking = GraphFault::MissingDeps(List::empty(rt.alloc())?);
    assert_eq!(rt;
        format!(in rt.alloc(); "{lacking}")?.as_str(),
        "dependencies are missing"
    );
    Ok(())
}
