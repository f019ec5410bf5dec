ghost use Rattle.std.specs.Prelude.{◌≡◌, ◌+◌, ◌<◌, ◌≤◌, ◌^◌, ℕ, OnOk};
ghost use Rattle.replica_text.specs.Ids.{is_known};
ghost use Rattle.tree_bench.specs.Typed.{at_depth, parent_at, AreTyped, IsTypedBefore};

use anyhow::Result;
use replica_text::{ListElements, ReplicaText};
use std::alloc::Global;
use tt_base::{Actor, ElemId, Name, Text, TextOp};

/// Behind which character each one is typed.
#[derive(Clone, Copy, Debug)]
pub enum Site {
    /// Behind the last one.
    End,
    /// In front of all.
    Front,
    /// Behind any earlier one, each time another.
    Anywhere,
}

/// The id of the first character.
fn first_id() -> ElemId
    ensures { result.index ≡ 0 }
{
    ElemId {
        depth: 1,
        actor: Actor([1; 16]),
        name: Name([2; 32]),
        index: 0,
    }
}

/// The same id at another depth.
fn id_at(first: &ElemId, depth: u64) -> ElemId
    ensures { result ≡ at_depth first.now depth }
{
    ElemId { depth, ..*first }
}

/// The id of the character that is typed behind, if it is one.
fn parent_at(first: &ElemId, parent: Option<u64>) -> Option<ElemId>
    ensures { result ≡ parent_at first.now parent }
{
    match parent {
        Some(depth) => Some(id_at(first, depth)),
        None => None,
    }
}

/// Behind which character the next one is typed, by the number of that, where so many are typed.
fn parent_of(site: Site, typed: u32, random: u64) -> Option<u64>
    ensures { IsTypedBefore result typed }
{
    match site {
        Site::Front => None,
        _ if typed == 0 => None,
        Site::End => Some(u64::from(typed)),
        Site::Anywhere => Some(random % u64::from(typed) + 1),
    }
}

/// Types a character behind another one or at the root, when so many are typed.
fn type_one(
    alloc: Global,
    text: &mut ReplicaText<ListElements>,
    first: &ElemId,
    typed: u32,
    parent: Option<u64>,
) -> Result<()>
    requires typed { AreTyped first.now typed (is_known text.old) }
    requires parent { IsTypedBefore parent typed }
    requires index { first.now.index ≡ 0 }
    ensures { OnOk result (AreTyped first.now (typed + 1) (is_known text.new)) }
{
    let mut inserted = Text::empty(alloc)?;
    inserted.push(alloc, 'x')?;
    let op = TextOp::Insert {
        first: id_at(first, u64::from(typed) + 1),
        parent: parent_at(first, parent),
        text: inserted,
    };
    text.join(alloc, &[op])?;
    Ok(())
}

/// A number that is hard to foresee, and the next one (the generator of Knuth's MMIX).
fn next_random(random: u64) -> u64 {
    random
        .wrapping_mul(6_364_136_223_846_793_005)
        .wrapping_add(1_442_695_040_888_963_407)
}

/// Types so many characters, and tells how long the text is then.
pub fn type_all(alloc: Global, site: Site, count: u32) -> Result<usize> {
    let first = first_id();
    let mut random = 1;
    let mut text: ReplicaText<ListElements> = ReplicaText::new(alloc)?;
    for typed in 0..count {
        random = next_random(random);
        let parent = parent_of(site, typed, random >> 33);
        type_one(alloc, &mut text, &first, typed, parent)?;
    }
    Ok(text.alive())
}
