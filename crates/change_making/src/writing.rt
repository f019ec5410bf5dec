//! Operations on a text, as a change writes them.

ghost use Rattle.std.specs.Prelude.{◌≡◌, ◌++◌, ◌∷◌, ◌<◌, ◌^◌, [], true, length, map, encode_utf8, encode_utf8_all, IfOk, IfSome, OnOk};
ghost use Rattle.std.specs.List.{AllByRecursion};
ghost use Rattle.std.specs.Str.{all_scalars, is_utf8};
ghost use Rattle.byte_format.specs.Format.{IsBytes};
ghost use Rattle.byte_format.specs.Values.{text_field};
ghost use Rattle.change_codec.specs.Encoding.{ref_field, parent_field, op_field};
ghost use Rattle.change_codec.specs.declared.ops.Op.TheVariants.{Make, Remove, Delete};
ghost use Rattle.change_codec.specs.declared.ops.Ref.TheVariants.{There};
ghost use Rattle.replica_views.specs.Made as made;
ghost use Rattle.change_making.specs.Writing.{CanBeWritten};

use change_codec::{Op, Parent, Ref};
use std::alloc::{AllocError, Global};
use tt_base::{ElemId, Name, SharedPath, Text, TextOp};

/// The bytes are such, each below 256.
fn byte_length(bytes: &[u8]) -> usize
    ensures long { result ≡ length bytes.now }
    ensures bytes { IsBytes bytes.now }
{
    bytes.len()
}

/// A text is UTF-8.
fn text_length(text: &str) -> usize
    ensures utf8 { is_utf8 text.now ≡ true }
    ensures bytes { IsBytes text.now }
{
    byte_length(text.as_bytes())
}

/// An actor has 16 bytes.
pub(crate) fn actor_length(bytes: &[u8; 16]) -> usize
    ensures long { length bytes.now ≡ 16 }
    ensures bytes { IsBytes bytes.now }
{
    byte_length(bytes)
}

/// A name has 32 bytes.
fn name_length(bytes: &[u8; 32]) -> usize
    ensures long { length bytes.now ≡ 32 }
    ensures bytes { IsBytes bytes.now }
{
    byte_length(bytes)
}

/// A place in the change of a name.
fn place_in(name: Name, index: u64) -> Ref
    ensures is { result ≡ There name index }
    ensures fits { ref_field.Fits result }
{
    let _length = name_length(&name.0);
    Ref::There(name, index)
}

/// What an earlier change made, as a change points at it.
pub(crate) fn ref_to(id: ElemId) -> Ref
    ensures is { result ≡ made.ref_to id }
    ensures fits { ref_field.Fits result }
{
    place_in(id.name, id.index)
}

fn parent_to(parent: Option<ElemId>) -> Parent
    ensures is { result ≡ made.parent_to parent }
    ensures fits { parent_field.Fits result }
{
    match parent {
        None => Parent::Root,
        Some(id) => Parent::After(ref_to(id)),
    }
}

/// The operation that makes a file at a path.
pub(crate) fn new_object(alloc: Global, path: &SharedPath) -> Result<Op, AllocError>
    ensures is { IfOk result (λ op. op ≡ Make path.now) }
    ensures fits { OnOk result (op_field.Fits (Make path.now)) }
{
    let _length = text_length(path.as_str());
    Ok(Op::Make(path.copied(alloc)?))
}

/// How many bytes the character has in UTF-8. It is a Unicode scalar value, as each `char` is.
fn byte_count(character: char) -> u64
    ensures bytes { result ≡ length (encode_utf8_all (character ∷ [])) }
    ensures scalar { all_scalars (character ∷ []) ≡ true }
{
    character.len_utf8() as u64
}

/// How many bytes the characters have in UTF-8, where u64 counts them.
fn encoded_length(characters: &[char]) -> Option<u64>
    ensures bytes { IfSome result (λ bytes. bytes ≡ length (encode_utf8_all characters.now)) }
    ensures scalars { IfSome result (λ bytes. all_scalars characters.now ≡ true) }
    ensures few { IfSome result (λ bytes. bytes < 2 ^ 64) }
{
    let mut bytes: u64 = 0;
    for character in characters {
        bytes = bytes.checked_add(byte_count(*character))?;
    }
    Some(bytes)
}

/// The text in memory of its own. One whose bytes u64 does not count has room in no memory.
fn copied_text(alloc: Global, text: &Text) -> Result<Text, AllocError>
    ensures copy { IfOk result (λ copy. copy ≡ text.now) }
    ensures fits { OnOk result (0 < length text.now → text_field.Fits text.now) }
{
    let mut characters = Vec::with_capacity(alloc, text.len())?;
    text.append_to(&mut characters)?;
    let Some(_bytes) = encoded_length(characters.as_slice()) else {
        return Err(AllocError);
    };
    Text::from_vec(alloc, characters)
}

/// The deletion of a run of characters of an object.
fn deletion(object: Ref, first: Ref, count: u64) -> Op
    requires object { ref_field.Fits object }
    requires first { ref_field.Fits first }
    requires some { 0 < count }
    ensures is { result ≡ Delete object first count }
    ensures fits { op_field.Fits result }
{
    Op::Delete {
        object,
        first,
        count,
    }
}

/// The removal of an object.
fn removal(object: Ref) -> Op
    requires { ref_field.Fits object }
    ensures is { result ≡ Remove object }
    ensures fits { op_field.Fits result }
{
    Op::Remove(object)
}

/// Removals of the objects, behind the operations that are there.
pub(crate) fn push_removals(objects: &[ElemId], ops: &mut Vec<Op>) -> Result<(), AllocError>
    ensures ops { OnOk result (ops.new.items ≡ ops.old.items ++ map made.removal objects.now) }
    ensures fit { OnOk result (AllByRecursion op_field.Fits (map made.removal objects.now)) }
{
    for object in objects {
        ops.push(removal(ref_to(*object)))?;
    }
    Ok(())
}

/// An operation on the text of an object, as a change writes it.
fn written_op(alloc: Global, object: Ref, op: &TextOp) -> Result<Op, AllocError>
    requires object { ref_field.Fits object }
    requires some { CanBeWritten op.now }
    ensures is { IfOk result (λ written. written ≡ made.written_op object op.now) }
    ensures fits { OnOk result (op_field.Fits (made.written_op object op.now)) }
{
    match op {
        TextOp::Insert { parent, text, .. } => Ok(Op::Insert {
            object,
            parent: parent_to(*parent),
            text: copied_text(alloc, text)?,
        }),
        TextOp::Delete { first, count } => Ok(deletion(object, ref_to(*first), *count)),
    }
}

/// Operations on the text of an object, behind those that are there.
pub(crate) fn push_written(
    alloc: Global,
    object: Ref,
    text_ops: &[TextOp],
    ops: &mut Vec<Op>,
) -> Result<(), AllocError>
    requires object { ref_field.Fits object }
    requires some { AllByRecursion CanBeWritten text_ops.now }
    ensures ops { OnOk result (ops.new.items ≡ ops.old.items ++ map (made.written_op object) text_ops.now) }
    ensures fit { OnOk result (AllByRecursion op_field.Fits (map (made.written_op object) text_ops.now)) }
{
    for op in text_ops {
        ops.push(written_op(alloc, object, op)?)?;
    }
    Ok(())
}
