//! Writes a change, field by field.
ghost use Rattle.std.specs.Prelude.{◌≡◌, ◌++◌, length, OnOk, IfOk, All};
ghost use Rattle.std.specs.List.{flat_map};
ghost use Rattle.byte_format.specs.Format.{IsEncoding};
ghost use Rattle.change_codec.specs.Encoding.{ref_field, parent_field, op_field, ops_field, change_format};

use crate::changes::Change;
use crate::ops::{Op, Parent, Ref};
use byte_format::{put_name, put_names, put_path, put_text, put_u64};
use std::alloc::{AllocError, Global};
use tt_base::Blob;

#[tactic(auto, unfolding(crate::specs::Encoding::ref_field))]
fn put_ref(out: &mut Vec<u8>, place: Ref) -> Result<(), AllocError>
    ensures { OnOk result (out.new.items ≡ out.old.items ++ ref_field.spelled place) }
{
    match place {
        Ref::Here(index) => {
            out.push(0)?;
            put_u64(out, index)
        }
        Ref::There(name, index) => {
            out.push(1)?;
            put_name(out, &name)?;
            put_u64(out, index)
        }
    }
}

#[tactic(auto, unfolding(crate::specs::Encoding::parent_field))]
fn put_parent(out: &mut Vec<u8>, parent: Parent) -> Result<(), AllocError>
    ensures { OnOk result (out.new.items ≡ out.old.items ++ parent_field.spelled parent) }
{
    match parent {
        Parent::Root => {
            out.push(0)?;
            Ok(())
        }
        Parent::After(place) => {
            out.push(1)?;
            put_ref(out, place)
        }
    }
}

#[tactic(auto, unfolding(crate::specs::Encoding::op_field, byte_format::specs::Values::count_field))]
fn put_op(alloc: Global, out: &mut Vec<u8>, op: &Op) -> Result<(), AllocError>
    ensures { OnOk result (out.new.items ≡ out.old.items ++ op_field.spelled op.now) }
{
    match op {
        Op::Make(path) => {
            out.push(1)?;
            put_path(out, path)
        }
        Op::Remove(object) => {
            out.push(2)?;
            put_ref(out, *object)
        }
        Op::Insert {
            object,
            parent,
            text,
        } => {
            out.push(3)?;
            put_ref(out, *object)?;
            put_parent(out, *parent)?;
            put_text(alloc, out, text)
        }
        Op::Delete {
            object,
            first,
            count,
        } => {
            out.push(4)?;
            put_ref(out, *object)?;
            put_ref(out, *first)?;
            put_u64(out, *count)
        }
    }
}

/// Writes the operations, one behind the other.
fn put_each_op(alloc: Global, out: &mut Vec<u8>, ops: &[Op]) -> Result<(), AllocError>
    ensures { OnOk result (out.new.items ≡ out.old.items ++ flat_map op_field.spelled ops.now) }
{
    for op in ops {
        put_op(alloc, out, op)?;
    }
    Ok(())
}

/// Writes the operations behind their number.
#[tactic(auto, using(crate::proofs::Written::ops_written))]
fn put_ops(alloc: Global, out: &mut Vec<u8>, ops: &[Op]) -> Result<(), AllocError>
    ensures { OnOk result (out.new.items ≡ out.old.items ++ ops_field.spelled ops.now) }
{
    put_u64(out, ops.len() as u64)?;
    put_each_op(alloc, out, ops)
}

/// The one encoding of the change.
#[tactic(auto, using(crate::proofs::Written::change_written))]
fn write_fields(alloc: Global, change: &Change) -> Result<Blob, AllocError>
    ensures { IfOk result (λ blob. blob ≡ change_format.spelled change.now) }
{
    let mut out = Vec::from_slice(alloc, b"TTC1")?;
    out.extend_from_slice(&change.actor().0)?;
    put_u64(&mut out, change.seq())?;
    put_names(&mut out, change.deps())?;
    put_ops(alloc, &mut out, change.ops())?;
    Ok(Blob::from_vec(out))
}

/// The encoding of the change: the one list of bytes that is read as this change.
pub fn write_change(alloc: Global, change: &Change) -> Result<Blob, AllocError>
    ensures { IfOk result (λ blob. IsEncoding change_format blob change.now) }
{
    let _maker = change.actor();
    write_fields(alloc, change)
}
