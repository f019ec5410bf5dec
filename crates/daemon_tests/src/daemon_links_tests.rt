use daemon_links::{Files, LinkEdit, Opened, Stop, open_link, send, send_all, take_edit};
use delta::{Delta, replace_all};
use editor_bridge::Bridge;
use file_uri::{Base, UriFault};
use rpc_message::{MessageId, Refusal, ToEditor};
use std::alloc::{AllocError, Global};
use std::test::Fail;
use tt_base::{PathFault, Position, SharedPath, Text, TextEdit};

fn base(alloc: Global) -> Result<Base, UriFault> {
    Base::read(alloc, "file:///work/")
}

fn path(alloc: Global) -> Result<SharedPath, PathFault> {
    SharedPath::read(alloc, "notes/a b")
}

fn change(
    alloc: Global,
    files: &mut Files,
    path: &SharedPath,
    d: &Delta,
) -> Result<(), AllocError> {
    if d.base_length() == files.length_at(path) && files.held() < u64::MAX {
        files.change(alloc, path, d)
    } else {
        Err(AllocError)
    }
}

#[test]
fn keeps_files(rt: HostRuntime) -> Result<(), Fail> {
    let alloc = rt.alloc();
    let mut files = Files::none(alloc);
    let path = path(alloc)?;
    assert_eq!(rt; files.length_at(&path), 0);
    for (length, text) in [(0, "ab"), (2, "xyz")] {
        let text = Text::from_str(alloc, text)?;
        change(
            alloc,
            &mut files,
            &path,
            &replace_all(alloc, length, &text)?,
        )?;
        assert!(rt; files.view(&path).is_some_and(|view| *view == text));
    }
    assert_eq!(rt; files.held(), 2);
    assert_eq!(rt; files.length_at(&path), 3);
    Ok(())
}

/// One edit at a place of the first line.
fn edit_at(alloc: Global, character: u64, text: &str) -> Result<TextEdit, AllocError> {
    let place = Position { line: 0, character };
    Ok(TextEdit {
        start: place,
        end: place,
        replacement: Text::from_str(alloc, text)?,
    })
}

fn take(alloc: Global, link: Bridge, seen: u64, edits: &[TextEdit]) -> Result<LinkEdit, Stop> {
    if link.taken() < u64::MAX {
        take_edit(alloc, link, seen, edits)
    } else {
        Err(Stop::Memory)
    }
}

/// The link to an editor that opens the file of "ab" with another text.
fn opened(alloc: Global) -> Result<Opened, Fail> {
    let view = Text::from_str(alloc, "ab")?;
    let content = Text::from_str(alloc, "xyz")?;
    let opened = open_link(alloc, &base(alloc)?, &path(alloc)?, content, &view)?;
    Ok(opened)
}

#[test]
fn takes_an_edit_past_the_first_replacement(rt: HostRuntime) -> Result<(), Fail> {
    let alloc = rt.alloc();
    let opened = opened(alloc)?;
    assert_eq!(rt; opened.messages.len(), 1);
    let edit = take(alloc, opened.link, 0, &[edit_at(alloc, 3, "!")?])?;
    assert_eq!(rt; edit.carried.result_length(), 3);
    assert_eq!(rt; edit.again.len(), 1);
    assert_eq!(rt; *edit.link.confirmed_text(), Text::from_str(alloc, "xyz!")?);
    Ok(())
}

#[test]
fn refuses_an_edit_in_order(rt: HostRuntime) -> Result<(), Fail> {
    let alloc = rt.alloc();
    for (seen, place) in [(2, 9), (0, 9)] {
        let refused = take(
            alloc,
            opened(alloc)?.link,
            seen,
            &[edit_at(alloc, place, "!")?],
        );
        let told = match refused.err() {
            Some(
                Stop::Refused(
                    Refusal::BadRevision {
                        confirmed,
                        issued,
                        seen,
                    },
                ),
            ) => (confirmed, issued, seen),
            Some(Stop::Refused(Refusal::BadPosition(edit))) => (7, 7, edit),
            _ => (9, 9, 9),
        };
        assert_eq!(rt; told, if seen == 2 { (0, 1, 2) } else { (7, 7, 0) });
    }
    Ok(())
}

#[test]
fn sends_in_frames(rt: HostRuntime) -> Result<(), Fail> {
    let alloc = rt.alloc();
    let messages = [
        ToEditor::Success(MessageId::Number(1)),
        ToEditor::Success(MessageId::Null),
    ];
    let mut sent = Vec::new(alloc);
    send_all(alloc, 3, &messages, &mut sent)?;
    assert_eq!(rt; sent.len(), 2);
    let told = format!(in alloc; "{:?}", sent[1])?;
    let want = format!(in alloc; "{:?}", send(alloc, 3, &messages[1])?)?;
    assert_eq!(rt; told.as_str(), want.as_str());
    Ok(())
}
