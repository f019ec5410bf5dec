use delta::{Delta, DeltaBuilder, DeltaStep, compose, replace_all};
use std::alloc::{AllocError, Global};
use std::test::Fail;
use tt_base::Text;

fn text(alloc: Global, s: &str) -> Result<Text, AllocError> {
    Text::from_str(alloc, s)
}

/// A text so many times.
fn repeated(alloc: Global, piece: &str, count: u16) -> Result<Text, AllocError> {
    let piece = text(alloc, piece)?;
    let mut whole = Vec::new(alloc);
    for _ in 0..count {
        piece.append_to(&mut whole)?;
    }
    Text::from_vec(alloc, whole)
}

/// The delta that so many times keeps characters, deletes the one behind them and inserts a text.
fn replacing_each(
    alloc: Global,
    count: u16,
    kept: u8,
    inserted: &str,
) -> Result<Delta, AllocError> {
    let inserted = text(alloc, inserted)?;
    let mut builder = DeltaBuilder::new(alloc)?;
    for done in 0..count {
        builder.keep(alloc, usize::from(kept))?;
        builder.delete(alloc, 1)?;
        builder.insert(alloc, &inserted)?;
    }
    let delta = builder.finish(alloc)?;
    Ok(delta)
}

#[test]
fn finish_moves_a_text_before_what_is_deleted(rt: HostRuntime) -> Result<(), Fail> {
    let alloc = rt.alloc();
    let mut builder = DeltaBuilder::new(alloc)?;
    builder.delete(alloc, 1)?;
    builder.insert(alloc, &text(alloc, "X")?)?;
    builder.keep(alloc, 1)?;
    let delta = builder.finish(alloc)?;
    let want = [
        DeltaStep::Insert(text(alloc, "X")?),
        DeltaStep::Delete(1),
        DeltaStep::Keep(1),
    ];
    assert_eq!(rt; delta.steps().as_slice(), want.as_slice());
    assert_eq!(rt; delta.base_length(), 2);
    assert_eq!(rt; delta.result_length(), 2);
    let ab = text(alloc, "ab")?;
    assert_eq!(rt; ab.len(), delta.base_length());
    assert_eq!(rt; delta.apply(alloc, &ab)?, text(alloc, "Xb")?);
    let copy = delta.copied(alloc)?;
    assert_eq!(rt; copy.steps().as_slice(), want.as_slice());
    Ok(())
}

#[test]
fn replace_all_deletes_and_inserts_in_front(rt: HostRuntime) -> Result<(), Fail> {
    let alloc = rt.alloc();
    let delta = replace_all(alloc, 2, &text(alloc, "z")?)?;
    let want = [DeltaStep::Insert(text(alloc, "z")?), DeltaStep::Delete(2)];
    assert_eq!(rt; delta.steps().as_slice(), want.as_slice());
    assert!(rt; !delta.is_empty());
    let empty = replace_all(alloc, 0, &Text::empty(alloc)?)?;
    assert_eq!(rt; empty.base_length(), 0);
    assert!(rt; empty.is_empty());
    Ok(())
}

#[test]
fn compose_drops_what_is_deleted_again(rt: HostRuntime) -> Result<(), Fail> {
    let alloc = rt.alloc();
    let mut builder = DeltaBuilder::new(alloc)?;
    builder.keep(alloc, 1)?;
    builder.insert(alloc, &text(alloc, "X")?)?;
    builder.keep(alloc, 1)?;
    let first = builder.finish(alloc)?;
    let mut builder = DeltaBuilder::new(alloc)?;
    builder.keep(alloc, 1)?;
    builder.delete(alloc, 2)?;
    let second = builder.finish(alloc)?;
    assert_eq!(rt; first.result_length(), second.base_length());
    let both = compose(alloc, &first, &second)?;
    let want = [DeltaStep::Keep(1), DeltaStep::Delete(1)];
    assert_eq!(rt; both.steps().as_slice(), want.as_slice());
    Ok(())
}

/// Also of 100 changes, and of a text of more than 4,096 characters.
#[test]
fn deltas_of_many_steps_apply_in_place(rt: HostRuntime) -> Result<(), Fail> {
    let alloc = rt.alloc();
    for count in [3, 100, 1000] {
        let mut changed = repeated(alloc, "abc", count)?;
        let delta = replacing_each(alloc, count, 2, "wxyz")?;
        assert_eq!(rt; changed.len(), delta.base_length());
        delta.apply_in_place(alloc, &mut changed)?;
        assert_eq!(rt; changed, repeated(alloc, "abwxyz", count)?);
    }
    Ok(())
}

/// Also of 100 changes, and of a text of more than 4,096 characters.
#[test]
fn deltas_of_many_steps_apply_at_once(rt: HostRuntime) -> Result<(), Fail> {
    let alloc = rt.alloc();
    for count in [3, 100, 1000] {
        let mut changed = repeated(alloc, "abc", count)?;
        let delta = replacing_each(alloc, count, 2, "wxyz")?;
        assert_eq!(rt; changed.len(), delta.base_length());
        delta.apply_at_once(alloc, &mut changed)?;
        assert_eq!(rt; changed, repeated(alloc, "abwxyz", count)?);
    }
    Ok(())
}

/// Also of 100 changes, and of a text of more than 4,096 characters.
#[test]
fn deltas_of_many_steps_apply_in_turn(rt: HostRuntime) -> Result<(), Fail> {
    let alloc = rt.alloc();
    for (count, steps) in [(3, 9), (100, 300), (1000, 3000)] {
        let base = repeated(alloc, "abc", count)?;
        let first = replacing_each(alloc, count, 2, "wxyz")?;
        assert_eq!(rt; base.len(), first.base_length());
        let reached = first.apply(alloc, &base)?;
        assert_eq!(rt; reached, repeated(alloc, "abwxyz", count)?);
        let second = replacing_each(alloc, count, 5, "!")?;
        assert_eq!(rt; first.result_length(), second.base_length());
        let both = compose(alloc, &first, &second)?;
        assert_eq!(rt; both.steps().len(), steps);
        assert_eq!(rt; base.len(), both.base_length());
        assert_eq!(rt;
            both.apply(alloc, &base)?,
            repeated(alloc, "abwxy!", count)?
        );
        let copy = both.copied(alloc)?;
        assert_eq!(rt; copy.steps().as_slice(), both.steps().as_slice());
        let all = replace_all(alloc, base.len(), &reached)?;
        assert_eq!(rt; base.len(), all.base_length());
        assert_eq!(rt; all.apply(alloc, &base)?, reached);
    }
    Ok(())
}
