use bridge_world::{Cause, EditorRoom, MoveFault, Verdict};
use delta::{Delta, replace_all};
use std::alloc::{AllocError, Global};
use std::test::Fail;
use tt_base::Text;

/// A delta of a text of this length, which gives way to another.
fn replacing(alloc: Global, length: usize, text: &str) -> Result<Delta, AllocError> {
    replace_all(alloc, length, &Text::from_str(alloc, text)?)
}

/// An editor types: all that it shows gives way to a text.
fn types(
    alloc: Global,
    room: &mut EditorRoom,
    n: usize,
    length: usize,
    text: &str,
) -> Result<(), MoveFault> {
    let p = replacing(alloc, length, text)?;
    if room.has_room() {
        room.type_edit(alloc, n, &p)
    } else {
        Err(MoveFault::Memory)
    }
}

/// The first message of an editor comes to the daemon.
fn take(alloc: Global, room: &mut EditorRoom, n: usize, verdict: Verdict) -> Result<(), MoveFault> {
    if room.has_room() {
        room.take(alloc, n, verdict)
    } else {
        Err(MoveFault::Memory)
    }
}

/// The first frame comes to an editor.
fn deliver(alloc: Global, room: &mut EditorRoom, n: usize) -> Result<(), MoveFault> {
    if room.has_room() {
        room.deliver(alloc, n)
    } else {
        Err(MoveFault::Memory)
    }
}

/// The daemon's text changes otherwise.
fn push(alloc: Global, room: &mut EditorRoom, length: usize, text: &str) -> Result<(), MoveFault> {
    let d = replacing(alloc, length, text)?;
    if room.has_room() {
        room.push(alloc, &d)
    } else {
        Err(MoveFault::Memory)
    }
}

/// An editor asks for the text.
fn open(alloc: Global, room: &mut EditorRoom, n: usize) -> Result<(), MoveFault> {
    if room.has_room() {
        room.open(alloc, n)
    } else {
        Err(MoveFault::Memory)
    }
}

/// A text "ab" with two editors that have opened it.
fn opened(alloc: Global) -> Result<EditorRoom, MoveFault> {
    let mut room = EditorRoom::new(alloc, Text::from_str(alloc, "ab")?);
    for n in 0..2 {
        room.join(alloc, Text::from_str(alloc, "ab")?)?;
        take(alloc, &mut room, n, Verdict::Accepts)?;
        deliver(alloc, &mut room, n)?;
    }
    Ok(room)
}

#[test]
fn crossing_edits_meet(rt: HostRuntime) -> Result<(), Fail> {
    let alloc = rt.alloc();
    let mut room = opened(alloc)?;
    types(alloc, &mut room, 0, 2, "X")?;
    types(alloc, &mut room, 1, 2, "Y")?;
    for n in [0, 1] {
        take(alloc, &mut room, n, Verdict::Accepts)?;
    }
    for n in [0, 0, 1, 1, 1] {
        deliver(alloc, &mut room, n)?;
    }
    assert_eq!(rt; *room.view(), Text::from_str(alloc, "XY")?);
    for editor in room.editors() {
        assert!(rt; editor.text == *room.view());
    }
    Ok(())
}

#[test]
fn a_change_from_elsewhere_is_shown(rt: HostRuntime) -> Result<(), Fail> {
    let alloc = rt.alloc();
    let mut room = opened(alloc)?;
    push(alloc, &mut room, 2, "new")?;
    deliver(alloc, &mut room, 1)?;
    let want = Text::from_str(alloc, "new")?;
    let shown: Vec<bool> = room
        .editors()
        .iter()
        .map(|editor| editor.text == want)
        .collect(alloc)?;
    assert_eq!(rt; shown.as_slice(), [false, true].as_slice());
    Ok(())
}

#[test]
fn a_refused_edit_ends_its_link(rt: HostRuntime) -> Result<(), Fail> {
    let alloc = rt.alloc();
    let mut room = opened(alloc)?;
    types(alloc, &mut room, 0, 2, "X")?;
    take(alloc, &mut room, 0, Verdict::Refuses(Cause::Other(32006)))?;
    deliver(alloc, &mut room, 0)?;
    assert_eq!(rt; *room.view(), Text::from_str(alloc, "ab")?);
    assert_eq!(rt; room.close(alloc, 0), Err(MoveFault::Closed));
    open(alloc, &mut room, 0)?;
    take(alloc, &mut room, 0, Verdict::Accepts)?;
    for _ in 0..2 {
        deliver(alloc, &mut room, 0)?;
    }
    for editor in room.editors() {
        assert!(rt; editor.text == *room.view());
    }
    Ok(())
}

#[test]
fn refuses_what_is_not_possible(rt: HostRuntime) -> Result<(), Fail> {
    let alloc = rt.alloc();
    let mut room = opened(alloc)?;
    let differs = Err(MoveFault::LengthDiffers(9, 2));
    assert_eq!(rt; types(alloc, &mut room, 0, 9, "X"), differs);
    assert_eq!(rt; push(alloc, &mut room, 9, "X"), differs);
    let missing = Err(MoveFault::NoEditor(2));
    assert_eq!(rt; types(alloc, &mut room, 2, 2, "X"), missing);
    assert_eq!(rt; deliver(alloc, &mut room, 2), missing);
    assert_eq!(rt; open(alloc, &mut room, 0), Err(MoveFault::NotClosed));
    room.lose(alloc, 0)?;
    assert_eq!(rt; room.close(alloc, 0), Err(MoveFault::Closed));
    Ok(())
}

#[test]
fn tells_its_faults(rt: HostRuntime) -> Result<(), Fail> {
    for (fault, text) in [
        (MoveFault::NoEditor(2), "there are 2 editors"),
        (
            MoveFault::LengthDiffers(9, 2),
            "a delta for 9 characters does not fit a text of 2",
        ),
        (MoveFault::NotClosed, "the editor has not closed its text"),
        (MoveFault::Closed, "the editor has closed its text"),
        (MoveFault::Memory, "out of memory"),
    ] {
        let told = format!(in rt.alloc(); "{fault}")?;
        assert_eq!(rt; told.as_str(), text);
    }
    Ok(())
}
