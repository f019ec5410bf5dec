use delta::{Delta, DeltaBuilder, replace_all};
use editor_bridge::{Bridge, BridgeFault, BridgeFrame, Taken};
use std::alloc::{AllocError, Global};
use std::test::Fail;
use tt_base::Text;

/// A delta that keeps, then inserts, and then keeps.
fn inserting(alloc: Global, before: u8, text: &str, behind: u8) -> Result<Delta, AllocError> {
    let mut builder = DeltaBuilder::new(alloc)?;
    builder.keep(alloc, usize::from(before))?;
    builder.insert(alloc, &Text::from_str(alloc, text)?)?;
    builder.keep(alloc, usize::from(behind))?;
    let delta = builder.finish(alloc)?;
    Ok(delta)
}

fn push(alloc: Global, bridge: &mut Bridge, d: Delta) -> Result<BridgeFrame, AllocError> {
    if d.base_length() == bridge.daemon_length() && bridge.issued() < u64::MAX {
        bridge.push(alloc, d)
    } else {
        Err(AllocError)
    }
}

fn take(alloc: Global, bridge: &mut Bridge, seen: u64, p: Delta) -> Result<Taken, BridgeFault> {
    if bridge.taken() < u64::MAX {
        bridge.take(alloc, seen, p)
    } else {
        Err(BridgeFault::Memory)
    }
}

/// A bridge on "ab", whose daemon has inserted "X" at gap 1.
fn with_x(alloc: Global) -> Result<Bridge, AllocError> {
    let mut bridge = Bridge::new(alloc, Text::from_str(alloc, "ab")?)?;
    push(alloc, &mut bridge, inserting(alloc, 1, "X", 1)?)?;
    Ok(bridge)
}

#[test]
fn sends_a_delta_with_its_revision(rt: HostRuntime) -> Result<(), Fail> {
    let alloc = rt.alloc();
    let mut bridge = with_x(alloc)?;
    let frame = push(alloc, &mut bridge, inserting(alloc, 3, "Z", 0)?)?;
    assert_eq!(rt; frame.revision, 0);
    let sent = inserting(alloc, 3, "Z", 0)?;
    assert_eq!(rt; frame.delta.steps().as_slice(), sent.steps().as_slice());
    Ok(())
}

#[test]
fn carries_an_edit_and_sends_again(rt: HostRuntime) -> Result<(), Fail> {
    let alloc = rt.alloc();
    let mut bridge = with_x(alloc)?;
    let taken = take(alloc, &mut bridge, 0, inserting(alloc, 1, "Y", 1)?)?;
    let carried = inserting(alloc, 2, "Y", 1)?;
    assert_eq!(rt;
        taken.carried.steps().as_slice(),
        carried.steps().as_slice()
    );
    assert_eq!(rt; taken.again.len(), 1);
    assert_eq!(rt; taken.again.at(0).revision, 1);
    let again = inserting(alloc, 1, "X", 2)?;
    assert_eq!(rt;
        taken.again.at(0).delta.steps().as_slice(),
        again.steps().as_slice()
    );
    Ok(())
}

#[test]
fn knows_the_texts_of_its_editor(rt: HostRuntime) -> Result<(), Fail> {
    let alloc = rt.alloc();
    let mut bridge = with_x(alloc)?;
    take(alloc, &mut bridge, 0, inserting(alloc, 1, "Y", 1)?)?;
    for (seen, text) in [(0, "aYb"), (1, "aXYb")] {
        assert_eq!(rt;
            bridge.editor_text(alloc, seen)?,
            Text::from_str(alloc, text)?
        );
    }
    assert_eq!(rt; bridge.confirmed_text().len(), 3);
    Ok(())
}

#[test]
fn confirms_without_an_edit(rt: HostRuntime) -> Result<(), Fail> {
    let alloc = rt.alloc();
    let mut bridge = with_x(alloc)?;
    assert_eq!(rt;
        bridge.confirm(alloc, 2).err(),
        Some(BridgeFault::RevisionAhead(2, 1))
    );
    bridge.confirm(alloc, 0)?;
    bridge.confirm(alloc, 1)?;
    assert_eq!(rt; *bridge.confirmed_text(), Text::from_str(alloc, "aXb")?);
    assert_eq!(rt;
        bridge.confirm(alloc, 0).err(),
        Some(BridgeFault::RevisionBack(0, 1))
    );
    Ok(())
}

/// So many of a character.
fn repeated(alloc: Global, character: char, count: u16) -> Result<Text, AllocError> {
    let mut all = Vec::new(alloc);
    for _ in 0..count {
        all.push(character)?;
    }
    Text::from_vec(alloc, all)
}

#[test]
fn keeps_long_texts(rt: HostRuntime) -> Result<(), Fail> {
    let alloc = rt.alloc();
    let mut bridge = Bridge::new(alloc, repeated(alloc, 'a', 5000)?)?;
    let b = repeated(alloc, 'b', 6000)?;
    push(alloc, &mut bridge, replace_all(alloc, 5000, &b)?)?;
    assert_eq!(rt; bridge.editor_text(alloc, 1)?, b);
    bridge.confirm(alloc, 1)?;
    assert_eq!(rt; *bridge.confirmed_text(), b);
    let c = repeated(alloc, 'c', 7000)?;
    let taken = take(alloc, &mut bridge, 1, replace_all(alloc, 6000, &c)?)?;
    assert_eq!(rt; taken.carried.result_length(), 7000);
    assert_eq!(rt; *bridge.confirmed_text(), c);
    Ok(())
}

#[test]
fn refuses_in_order(rt: HostRuntime) -> Result<(), Fail> {
    let alloc = rt.alloc();
    let mut bridge = with_x(alloc)?;
    let seen = take(alloc, &mut bridge, 1, inserting(alloc, 3, "", 0)?)?;
    assert_eq!(rt; seen.again.len(), 0);
    for (seen, fault) in [
        (2, BridgeFault::RevisionAhead(2, 1)),
        (0, BridgeFault::RevisionBack(0, 1)),
        (1, BridgeFault::LengthDiffers(9, 3)),
    ] {
        let refused = take(alloc, &mut bridge, seen, inserting(alloc, 9, "", 0)?);
        assert_eq!(rt; refused.err(), Some(fault));
    }
    assert_eq!(rt;
        bridge.editor_text(alloc, 0).err(),
        Some(BridgeFault::RevisionBack(0, 1))
    );
    Ok(())
}

#[test]
fn tells_its_faults(rt: HostRuntime) -> Result<(), Fail> {
    for (fault, text) in [
        (
            BridgeFault::RevisionAhead(2, 1),
            "revision 2 is ahead of the 1 issued",
        ),
        (
            BridgeFault::RevisionBack(0, 1),
            "revision 0 is behind the 1 confirmed",
        ),
        (
            BridgeFault::LengthDiffers(9, 4),
            "a delta for 9 characters does not fit a text of 4",
        ),
        (BridgeFault::Memory, "out of memory"),
    ] {
        let told = format!(in rt.alloc(); "{fault}")?;
        assert_eq!(rt; told.as_str(), text);
    }
    Ok(())
}
