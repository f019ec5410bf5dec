//! Reads the fields of a change, one behind the other.
//!
//! Each reader takes the bytes to the end and answers the value with the bytes behind it, or the first field
//! outside its format by how many bytes are left from there. The offset is found once, at the top.
ghost use Rattle.std.specs.Prelude as prelude;
ghost use Rattle.std.specs.Prelude.{◌≡◌, length, codes, Ok, Err, IfOk, MatchResult};
ghost use Rattle.std.specs.Option.{option_map};
ghost use Rattle.std.specs.Str.{bytes_eq};
ghost use Rattle.byte_format.specs.Format.{whole, IsEncoding};
ghost use Rattle.byte_format.specs.Fields.{taking};
ghost use Rattle.byte_format.specs.Parts.{checked};
ghost use Rattle.byte_format.specs.Read.{GivesExactly, IsKept, Judges, JudgesAll};
ghost use Rattle.change_codec.specs.Change as spec;
ghost use Rattle.change_codec.specs.Encoding.{ref_field, parent_field, op_field, some_ops, ops_field, change_format};
ghost use Rattle.change_codec.specs.Read.{Reads};
ghost use Rattle.change_codec.specs.Views.{op_viewed};

use crate::changes::Change;
use crate::faults::BadEncoding;
use crate::ops::{Op, Parent, Ref};
use crate::views::{OpView, with_op};
use byte_format::{
    Kind, Outside, read_actor, read_count, read_name, read_names_through, read_path_text, read_str,
    read_u64,
};
use std::alloc::Global;
use tt_base::{Actor, List, Name};

#[tactic(auto, unfolding(crate::specs::Encoding::ref_field))]
fn read_ref(bytes: &[u8]) -> Result<(Ref, &[u8]), Outside>
    ensures { GivesExactly (λ x. (x.0, x.1.now)) result (ref_field.reads bytes.now) }
{
    match bytes {
        [] => Err(Outside::at(Kind::Short, bytes)),
        [0, rest @ ..] => {
            let (index, rest) = read_u64(rest)?;
            Ok((Ref::Here(index), rest))
        }
        [1, rest @ ..] => {
            let (name, rest) = read_name(rest)?;
            let (index, rest) = read_u64(rest)?;
            Ok((Ref::There(name, index), rest))
        }
        [_, ..] => Err(Outside::at(Kind::Tag, bytes)),
    }
}

#[tactic(auto, unfolding(crate::specs::Encoding::parent_field))]
fn read_parent(bytes: &[u8]) -> Result<(Parent, &[u8]), Outside>
    ensures { GivesExactly (λ x. (x.0, x.1.now)) result (parent_field.reads bytes.now) }
{
    match bytes {
        [] => Err(Outside::at(Kind::Short, bytes)),
        [0, rest @ ..] => Ok((Parent::Root, rest)),
        [1, rest @ ..] => {
            let (place, rest) = read_ref(rest)?;
            Ok((Parent::After(place), rest))
        }
        [_, ..] => Err(Outside::at(Kind::Tag, bytes)),
    }
}

#[tactic(auto, unfolding(crate::specs::Encoding::op_field))]
fn read_op(alloc: Global, bytes: &[u8]) -> Result<(OpView<'_>, &[u8]), Outside>
    ensures { GivesExactly (λ x. (op_viewed x.0, x.1.now)) result (op_field.reads bytes.now) }
{
    match bytes {
        [] => Err(Outside::at(Kind::Short, bytes)),
        [1, rest @ ..] => {
            let (path, rest) = read_path_text(alloc, rest)?;
            Ok((OpView::Make(path), rest))
        }
        [2, rest @ ..] => {
            let (object, rest) = read_ref(rest)?;
            Ok((OpView::Remove(object), rest))
        }
        [3, rest @ ..] => {
            let (object, rest) = read_ref(rest)?;
            let (parent, rest) = read_parent(rest)?;
            let (text, rest) = read_str(rest)?;
            let insert = OpView::Insert {
                object,
                parent,
                text,
            };
            Ok((insert, rest))
        }
        [4, rest @ ..] => {
            let (object, rest) = read_ref(rest)?;
            let (first, rest) = read_ref(rest)?;
            let (count, rest) = read_count(rest)?;
            let delete = OpView::Delete {
                object,
                first,
                count,
            };
            Ok((delete, rest))
        }
        [_, ..] => Err(Outside::at(Kind::Tag, bytes)),
    }
}

/// So many operations. Where memory runs out, reading goes on without keeping them.
fn read_some_ops(
    alloc: Global,
    count: u64,
    bytes: &[u8],
) -> Result<(Option<Vec<Op>>, &[u8]), Outside>
    ensures { Judges (λ x. option_map (λ v. v.items) x.0) (λ x. x.1.now) result ((some_ops count).reads bytes.now) }
{
    let mut ops = Some(Vec::new(alloc));
    let mut rest = bytes;
    for _ in 0..count {
        let (view, behind) = read_op(alloc, rest)?;
        ops = with_op(alloc, ops, view);
        rest = behind;
    }
    Ok((ops, rest))
}

#[tactic(auto, unfolding(crate::specs::Encoding::ops_field))]
fn read_ops(alloc: Global, bytes: &[u8]) -> Result<(Option<List<Op>>, &[u8]), Outside>
    ensures { Judges (λ x. x.0) (λ x. x.1.now) result (ops_field.reads bytes.now) }
{
    let (count, rest) = read_u64(bytes)?;
    let (ops, rest) = read_some_ops(alloc, count, rest)?;
    match ops {
        Some(ops) => Ok((Some(List::from_vec(ops)), rest)),
        None => Ok((None, rest)),
    }
}

/// The bytes behind the mark.
fn read_mark(bytes: &[u8]) -> Result<&[u8], Outside>
    ensures { GivesExactly (λ rest. (codes "TTC1", rest.now)) result ((checked (λ mark. bytes_eq mark (codes "TTC1")) Kind.Magic (taking 4)).reads bytes.now) }
{
    match bytes.split_first_chunk::<4>() {
        Some((b"TTC1", rest)) => Ok(rest),
        Some(_) => Err(Outside::at(Kind::Magic, bytes)),
        None => Err(Outside::at(Kind::Short, bytes)),
    }
}

/// What stands in an encoding behind the mark.
#[derive(Drop)]
struct Parts {
    actor: Actor,
    seq: u64,
    deps: List<Name>,
    ops: List<Op>,
}

/// The parts, if memory held both lists.
fn parts_of(
    actor: Actor,
    seq: u64,
    deps: Option<List<Name>>,
    ops: Option<List<Op>>,
) -> Option<Parts>
    ensures { (names : prelude.List Name) (all : prelude.List Op) → IsKept deps names → IsKept ops all
        → IsKept (option_map {U = spec.Change} (λ p. record { actor = p.actor; seq = p.seq; deps = p.deps; ops = p.ops }) result) (record { actor = actor; seq = seq; deps = names; ops = all }) }
{
    Some(Parts {
        actor,
        seq,
        deps: deps?,
        ops: ops?,
    })
}

/// The parts of the change that all of the bytes encode, if there is memory for them.
#[tactic(auto, unfolding(crate::specs::Encoding::change_format))]
fn read_parts(alloc: Global, bytes: &[u8]) -> Result<Option<Parts>, Outside>
    ensures { JudgesAll (λ parts. option_map {U = spec.Change} (λ p. record { actor = p.actor; seq = p.seq; deps = p.deps; ops = p.ops }) parts) result (whole change_format bytes.now) }
{
    let rest = read_mark(bytes)?;
    let (actor, rest) = read_actor(rest)?;
    let (seq, rest) = read_u64(rest)?;
    let (deps, rest) = read_names_through(alloc, rest)?;
    let (ops, rest) = read_ops(alloc, rest)?;
    if !rest.is_empty() {
        return Err(Outside::at(Kind::Rest, rest));
    }
    Ok(parts_of(actor, seq, deps, ops))
}

/// Reads the change that all of the bytes encode.
///
/// The bytes are judged to their end whatever memory there is, so want of memory is told of an encoding alone.
pub fn read_change(alloc: Global, bytes: &[u8]) -> Result<Change, BadEncoding>
    // What is read is encoded so.
    ensures found { IfOk result (λ change. IsEncoding change_format bytes.now change) }
    // What is encoded so is read, unless memory runs out.
    ensures only { (change : spec.Change) → IsEncoding change_format bytes.now change
        → MatchResult result (λ read. read ≡ change) (λ fault. fault ≡ BadEncoding.Memory) }
    // Any other bytes are refused at the first field that is outside its format.
    ensures exact { Reads (length bytes.now) result (whole change_format bytes.now) }
{
    match read_parts(alloc, bytes) {
        Ok(parts) => match parts {
            Some(
                Parts {
                    actor,
                    seq,
                    deps,
                    ops,
                },
            ) => Ok(Change::new(actor, seq, deps, ops)),
            None => Err(BadEncoding::Memory),
        },
        Err(field) => Err(BadEncoding::At(bytes.len() - field.left, field.kind)),
    }
}
