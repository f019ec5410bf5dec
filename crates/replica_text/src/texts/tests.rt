//! Worked rows. A join asks that its operations may follow, so it is tested first that they may.
ghost use Rattle.std.specs.Prelude.{◌≡◌, ◌+◌, ◌^◌, ◌≤◌, length, drop, IsTrue, IfOk};
ghost use Rattle.replica_text.specs.Ids.{is_known};
ghost use Rattle.replica_text.specs.Ops.{IsRunKnown, MayBeParent, MayFollow, AllMayFollow, all_known_after};
ghost use Rattle.replica_text.specs.Made.{IsAbove};

use super::*;
use crate::ListElements;
use delta::{Delta, DeltaBuilder, DeltaStep};
use std::alloc::{AllocError, Global};
use std::process::Abort;
use std::test::Fail;
use tt_base::{Actor, ElemId, Elements, List, Name, Text, TextOp};

/// The id of what the change of this depth by this actor made.
fn id(depth: u64, actor: u8, index: u64) -> ElemId {
    ElemId {
        depth,
        actor: Actor([actor; 16]),
        name: Name([actor; 32]),
        index,
    }
}

/// Whether an element has the id.
fn has<E: Elements>(elements: &E, id: &ElemId) -> bool
    ensures { result ≡ is_known (E.elements elements.now) id.now }
{
    elements.place_of(id).is_some()
}

/// Whether each of so many ids from the first on is among the elements, or none is, as the answer says.
fn is_run_known<E: Elements>(elements: &E, answer: bool, first: &ElemId, count: u64) -> bool
    ensures { IsTrue result → IsRunKnown answer first.now count (is_known (E.elements elements.now)) }
{
    if count == 0 {
        return true;
    }
    if has(elements, first) != answer || first.index == u64::MAX {
        return false;
    }
    let next = ElemId {
        index: first.index + 1,
        ..*first
    };
    is_run_known(elements, answer, &next, count - 1)
}

/// Whether an element may be the parent of one with this id.
fn may_be_parent<E: Elements>(elements: &E, parent: &Option<ElemId>, id: &ElemId) -> bool
    ensures { IsTrue result → MayBeParent parent.now id.now (is_known (E.elements elements.now)) }
{
    match parent {
        None => true,
        Some(parent) => has(elements, parent) && parent.is_before(id),
    }
}

/// Whether so many ids from the first on have indexes that fit u64.
fn fits(first: &ElemId, count: u64) -> bool
    ensures { IsTrue result → first.now.index + count ≤ 2 ^ 64 }
{
    first.index <= u64::MAX - count
}

/// Whether the operation may follow on the text.
fn may_follow<E: Elements>(elements: &E, op: &TextOp) -> bool
    ensures { IsTrue result → MayFollow op.now (is_known (E.elements elements.now)) }
{
    match op {
        TextOp::Insert {
            first,
            parent,
            text,
        } => {
            let count = text.len() as u64;
            if !may_be_parent(elements, parent, first) || !fits(first, count) {
                return false;
            }
            is_run_known(elements, false, first, count)
        }
        TextOp::Delete { first, count } => {
            if !fits(first, *count) {
                return false;
            }
            is_run_known(elements, true, first, *count)
        }
    }
}

/// Joins the operations one by one while each may follow, and says whether all did.
fn join_singly(
    alloc: Global,
    text: &mut ReplicaText<ListElements>,
    ops: &[TextOp],
) -> Result<bool, AllocError>
    ensures may_follow { IfOk result (λ all. IsTrue all → AllMayFollow ops.now (is_known text.old)) }
    ensures known { IfOk result (λ all. IsTrue all → is_known text.new ≡ all_known_after ops.now (is_known text.old)) }
{
    if ops.is_empty() {
        return Ok(true);
    }
    let (first, others) = ops.split_at(1);
    if !may_follow(&text.elements, &first[0]) {
        return Ok(false);
    }
    text.join(alloc, first)?;
    join_singly(alloc, text, others)
}

/// Whether the id is greater than those of the elements from a place on.
fn is_above<E: Elements>(id: &ElemId, elements: &E, place: usize) -> bool
    requires { place ≤ length (E.elements elements.now) }
    ensures { IsTrue result → IsAbove id.now (drop place (E.elements elements.now)) }
{
    if place == elements.len() {
        return true;
    }
    elements.at(place).id.is_before(id) && is_above(id, elements, place + 1)
}

/// The operations of a change of the text.
fn made(
    rt: &(impl Abort + AllocGlobal),
    text: &ReplicaText<ListElements>,
    delta: &Delta,
    next: ElemId,
) -> Result<List<TextOp>, Fail>
    ensures { IfOk result (λ ops. AllMayFollow ops (is_known text.now)) }
{
    assert_eq!(rt; delta.base_length(), text.alive());
    assert_eq!(rt; next.index, 0);
    assert!(rt; delta.result_length() < 1_000_000);
    assert!(rt; is_above(&next, &text.elements, 0));
    Ok(text.ops_of(rt.alloc(), delta, next)?)
}

/// A character, by the depth and the actor of its change and by its index.
type Place = (u64, u8, u64);

/// What a row asks for.
#[derive(Clone, Copy)]
enum Row {
    /// The change of this depth by this actor types a text behind a character, or at the root.
    Typed(u64, u8, Option<Place>, &'static str),
    /// So many characters are deleted, from this one on.
    Deleted(Place, u64),
}

fn id_at((depth, actor, index): Place) -> ElemId {
    id(depth, actor, index)
}

fn op_of(alloc: Global, row: Row) -> Result<TextOp, AllocError> {
    match row {
        Row::Typed(depth, actor, parent, text) => Ok(TextOp::Insert {
            first: id(depth, actor, 0),
            parent: parent.map(id_at),
            text: Text::from_str(alloc, text)?,
        }),
        Row::Deleted(first, count) => Ok(TextOp::Delete {
            first: id_at(first),
            count,
        }),
    }
}

fn ops_of(alloc: Global, rows: &[Row]) -> Result<Vec<TextOp>, AllocError> {
    let mut ops = Vec::new(alloc);
    for row in rows {
        ops.push(op_of(alloc, *row)?)?;
    }
    Ok(ops)
}

/// The steps of a delta in words: what is kept, inserted and deleted.
fn spelled(alloc: Global, delta: &Delta) -> Result<String, Fail> {
    let mut words = String::new(alloc);
    for step in delta.steps().as_slice() {
        let word = match step {
            DeltaStep::Keep(count) => format!(in alloc; "={count} ")?,
            DeltaStep::Insert(text) => format!(in alloc; "+{} ", text.to_string(alloc)?.as_str())?,
            DeltaStep::Delete(count) => format!(in alloc; "-{count} ")?,
        };
        words.push_str(word.as_str())?;
    }
    Ok(words)
}

/// The effect of operations behind others, and the text with them. Joined one by one they leave the same.
fn joined(
    rt: &(impl Abort + AllocGlobal),
    before: &[TextOp],
    ops: &[TextOp],
) -> Result<(Delta, ReplicaText<ListElements>), Fail> {
    let alloc = rt.alloc();
    let mut singly: ReplicaText<ListElements> = ReplicaText::new(alloc)?;
    let all_before = join_singly(alloc, &mut singly, before)?;
    assert!(rt; all_before);
    let all = join_singly(alloc, &mut singly, ops)?;
    assert!(rt; all);
    let mut at_once: ReplicaText<ListElements> = ReplicaText::new(alloc)?;
    at_once.join(alloc, before)?;
    let effect = at_once.join(alloc, ops)?;
    assert_eq!(rt; singly.text(alloc)?, at_once.text(alloc)?);
    Ok((effect, at_once))
}

const A: Place = (1, 1, 0);

const B: Place = (1, 1, 1);

const AB: Row = Row::Typed(1, 1, None, "ab");

const X: Row = Row::Typed(2, 1, Some(A), "X");

const Y: Row = Row::Typed(2, 2, Some(A), "Y");

const AT_ROOT: Row = Row::Typed(2, 2, None, "Z");

#[test]
fn a_join_answers_its_effect(rt: HostRuntime) -> Result<(), Fail> {
    let alloc = rt.alloc();
    let rows: [(&[Row], &[Row], &str, &str); 11] = [
        (&[AB], &[X], "=1 +X =1 ", "aXb"),
        (&[AB, X], &[Y], "=1 +Y =2 ", "aYXb"),
        (&[AB, Y], &[X], "=2 +X =1 ", "aYXb"),
        (&[AB], &[X, Y], "=1 +YX =1 ", "aYXb"),
        (&[AB], &[Y, X], "=1 +YX =1 ", "aYXb"),
        (
            &[AB],
            &[X, Row::Deleted(A, 1), AT_ROOT],
            "+ZX -1 =1 ",
            "ZXb",
        ),
        (&[AB], &[X, Row::Deleted((2, 1, 0), 1)], "=2 ", "ab"),
        (&[AB], &[Row::Deleted(A, 1)], "-1 =1 ", "b"),
        (&[AB, Row::Deleted(A, 1)], &[Row::Deleted(A, 2)], "-1 ", ""),
        (&[AB, Row::Deleted(A, 2)], &[Row::Deleted(B, 1)], "", ""),
        (&[AB, Row::Deleted(A, 2)], &[X, Y], "+YX ", "YX"),
    ];
    for (before, ops, effect, text) in rows {
        let before = ops_of(alloc, before)?;
        let ops = ops_of(alloc, ops)?;
        let (delta, after) = joined(&rt, before.as_slice(), ops.as_slice())?;
        assert_eq!(rt; spelled(alloc, &delta)?.as_str(), effect);
        assert_eq!(rt; after.text(alloc)?, Text::from_str(alloc, text)?);
    }
    Ok(())
}

/// What each of three actors types: a run behind the bracket, then one behind its first character, and again.
const REPLIES: [[Row; 3]; 3] = [
    [
        Row::Typed(2, 1, Some(A), "Aa"),
        Row::Typed(3, 1, Some((2, 1, 0)), "Bb"),
        Row::Typed(4, 1, Some((3, 1, 0)), "Cc"),
    ],
    [
        Row::Typed(2, 2, Some(A), "Dd"),
        Row::Typed(3, 2, Some((2, 2, 0)), "Ee"),
        Row::Typed(4, 2, Some((3, 2, 0)), "Ff"),
    ],
    [
        Row::Typed(2, 3, Some(A), "Gg"),
        Row::Typed(3, 3, Some((2, 3, 0)), "Hh"),
        Row::Typed(4, 3, Some((3, 3, 0)), "Ii"),
    ],
];

const ORDERS: [[usize; 3]; 6] = [
    [0, 1, 2],
    [0, 2, 1],
    [1, 0, 2],
    [1, 2, 0],
    [2, 0, 1],
    [2, 1, 0],
];

#[test]
fn nested_replies_come_in_any_order(rt: HostRuntime) -> Result<(), Fail> {
    let alloc = rt.alloc();
    let before = ops_of(alloc, &[Row::Typed(1, 1, None, "[]")])?;
    for order in ORDERS {
        let mut by_actor = Vec::new(alloc);
        let mut by_depth = Vec::new(alloc);
        for one in 0..3 {
            for other in 0..3 {
                by_actor.push(REPLIES[order[one] % 3][other])?;
                by_depth.push(REPLIES[order[other] % 3][one])?;
            }
        }
        for rows in [by_actor, by_depth] {
            let ops = ops_of(alloc, rows.as_slice())?;
            let (effect, text) = joined(&rt, before.as_slice(), ops.as_slice())?;
            assert_eq!(rt;
                spelled(alloc, &effect)?.as_str(),
                "=1 +GHIihgDEFfedABCcba =1 "
            );
            assert_eq!(rt;
                text.text(alloc)?,
                Text::from_str(alloc, "[GHIihgDEFfedABCcba]")?
            );
        }
    }
    Ok(())
}

/// The delta that inserts a text, and then so many times keeps three characters, deletes two and inserts a text.
fn change(alloc: Global, text: &str, times: u16, inserted: &str) -> Result<Delta, AllocError> {
    let inserted = Text::from_str(alloc, inserted)?;
    let mut builder = DeltaBuilder::new(alloc)?;
    builder.insert(alloc, &Text::from_str(alloc, text)?)?;
    for done in 0..times {
        builder.keep(alloc, 3)?;
        builder.delete(alloc, 2)?;
        builder.insert(alloc, &inserted)?;
    }
    let delta = builder.finish(alloc)?;
    Ok(delta)
}

#[test]
fn made_operations_answer_their_change(rt: HostRuntime) -> Result<(), Fail> {
    let alloc = rt.alloc();
    let empty: ReplicaText<ListElements> = ReplicaText::new(alloc)?;
    let typed = "0123456789".repeat(alloc, 200)?;
    let first = change(alloc, typed.as_str(), 0, "")?;
    let first_ops = made(&rt, &empty, &first, id(1, 1, 0))?;
    let (_, text) = joined(&rt, &[], first_ops.as_slice())?;
    assert_eq!(rt; text.alive(), 2_000);
    let second = change(alloc, "front", 400, "xyz")?;
    let second_ops = made(&rt, &text, &second, id(2, 2, 0))?;
    let (effect, after) = joined(&rt, first_ops.as_slice(), second_ops.as_slice())?;
    assert_eq!(rt; effect.steps().as_slice(), second.steps().as_slice());
    let before = text.text(alloc)?;
    assert_eq!(rt; before, Text::from_str(alloc, typed.as_str())?);
    assert_eq!(rt; before.len(), second.base_length());
    assert_eq!(rt; after.text(alloc)?, second.apply(alloc, &before)?);
    Ok(())
}
