use editor_client::HeardNote;
use editor_seat::{DeliverFault, EditorSeat, write_note};
use file_uri::Base;
use std::alloc::{AllocError, Global};
use std::process::Abort;
use std::test::Fail;
use tt_base::{Blob, SharedPath, Text};

const SUCCESS: &str = r#"{"id":1,"jsonrpc":"2.0","result":"success"}"#;

const REFUSED: &str =
    r#"{"error":{"code":-32005,"data":{"confirmed":0,"issued":0,"seen":5},"message":"bad revision"},"id":2,"jsonrpc":"2.0"}"#;

/// The daemon's X at gap 1, made without an edit of the editor.
const X_BEFORE: &str =
    r#"{"jsonrpc":"2.0","method":"edit","params":{"delta":[{"range":{"end":{"character":1,"line":0},"start":{"character":1,"line":0}},"replacement":"X"}],"revision":0,"uri":"file:///work/src/a%20b.rs"}}"#;

/// What an editor does, or what is done to what is under way.
#[derive(Clone, Copy, Debug)]
enum Step {
    Type(usize, usize, &'static str),
    Open,
    OpenOn(u64),
    Close,
    Cut,
    /// Takes the first body up.
    Up,
    /// A frame with this body is under way.
    Receive(&'static str),
    Deliver,
}

/// An editor of `src/a b.rs` that shows this text, on connection 7 to daemon 3.
fn joined(alloc: Global, text: &str) -> Result<EditorSeat, Fail> {
    let base = Base::read(alloc, "file:///work/")?;
    let path = SharedPath::read(alloc, "src/a b.rs")?;
    let text = Text::from_str(alloc, text)?;
    Ok(EditorSeat::join(alloc, &base, 3, &path, 7, text)?)
}

// The calls under test, as what they tell. The tests compare what runs, and their proofs need no fact of it.

fn told(text: String) -> Blob {
    Blob::from_vec(text.into_bytes())
}

fn silence(alloc: Global, done: Result<(), AllocError>) -> Result<Blob, AllocError> {
    done?;
    Blob::empty(alloc)
}

fn type_text(
    alloc: Global,
    editor: &mut EditorSeat,
    place: usize,
    gone: usize,
    text: &str,
) -> Result<Blob, AllocError> {
    let text = Text::from_str(alloc, text)?;
    if !editor.has_room() {
        return Err(AllocError);
    }
    match editor.type_text(alloc, place, gone, &text) {
        Ok(()) => Blob::empty(alloc),
        Err(fault) => Ok(told(format!(in alloc; "{fault}")?)),
    }
}

fn open(alloc: Global, editor: &mut EditorSeat) -> Result<(), AllocError> {
    if editor.state().is_closed() && editor.has_room() {
        editor.open(alloc)
    } else {
        Err(AllocError)
    }
}

fn open_on(alloc: Global, editor: &mut EditorSeat, connection: u64) -> Result<(), AllocError> {
    if editor.state().is_closed() && editor.has_room() {
        editor.open_on(alloc, connection)
    } else {
        Err(AllocError)
    }
}

fn close(alloc: Global, editor: &mut EditorSeat) -> Result<(), AllocError> {
    if !editor.state().is_closed() && editor.has_room() {
        editor.close(alloc)
    } else {
        Err(AllocError)
    }
}

fn take_up(alloc: Global, editor: &mut EditorSeat) -> Result<Blob, AllocError> {
    match editor.take_up() {
        Some(body) => Ok(body),
        None => Ok(told(String::from_str(alloc, "nothing")?)),
    }
}

fn receive(alloc: Global, editor: &mut EditorSeat, body: &str) -> Result<(), AllocError> {
    let length = body.len();
    let frame = format!(in alloc; "Content-Length: {length}\r\n\r\n{body}")?;
    editor.receive(Blob::from_vec(frame.into_bytes()))
}

fn deliver(alloc: Global, editor: &mut EditorSeat) -> Result<Blob, AllocError> {
    if !editor.has_room() {
        return Err(AllocError);
    }
    match editor.deliver(alloc) {
        Ok(note) => Ok(told(format!(in alloc; "{note:?}")?)),
        Err(fault) => Ok(told(format!(in alloc; "{fault}")?)),
    }
}

fn told_by(alloc: Global, editor: &mut EditorSeat, step: Step) -> Result<Blob, AllocError> {
    match step {
        Step::Type(place, gone, text) => type_text(alloc, editor, place, gone, text),
        Step::Open => silence(alloc, open(alloc, editor)),
        Step::OpenOn(connection) => silence(alloc, open_on(alloc, editor, connection)),
        Step::Close => silence(alloc, close(alloc, editor)),
        Step::Cut => {
            editor.cut();
            Blob::empty(alloc)
        }
        Step::Up => take_up(alloc, editor),
        Step::Receive(body) => silence(alloc, receive(alloc, editor, body)),
        Step::Deliver => deliver(alloc, editor),
    }
}

/// What an editor of this text tells of each step, and what `show` tells of it then.
fn assert_steps(
    rt: &(impl Abort + AllocGlobal),
    text: &str,
    rows: &[(Step, &str, &str)],
) -> Result<(), Fail> {
    let alloc = rt.alloc();
    let mut editor = joined(alloc, text)?;
    for (step, told, shown) in rows {
        let given = told_by(alloc, &mut editor, *step)?;
        assert!(rt;
            given.as_slice() == told.as_bytes(),
            "{step:?} does not tell {told}"
        );
        let line = editor.write_show(alloc, 5)?;
        assert!(rt; line.as_str() == *shown, "{step:?} shows {line}");
    }
    Ok(())
}

#[test]
fn what_is_under_way_keeps_its_order(rt: HostRuntime) -> Result<(), Fail> {
    let edit =
        r#"{"id":2,"jsonrpc":"2.0","method":"edit","params":{"delta":[{"range":{"end":{"character":3,"line":0},"start":{"character":2,"line":0}},"replacement":"Yc"}],"revision":0,"uri":"file:///work/src/a%20b.rs"}}"#;
    let open =
        r#"{"id":1,"jsonrpc":"2.0","method":"open","params":{"content":"abc","uri":"file:///work/src/a%20b.rs"}}"#;
    assert_steps(
        &rt,
        "abc",
        &[
            (Step::Type(2, 1, "Yc"), "", "show 5 busy \"abYc\"\n"),
            (Step::Up, open, "show 5 busy \"abYc\"\n"),
            (Step::Up, edit, "show 5 quiet \"abYc\"\n"),
            (Step::Up, "nothing", "show 5 quiet \"abYc\"\n"),
            (Step::Receive(SUCCESS), "", "show 5 busy \"abYc\"\n"),
            (Step::Receive(X_BEFORE), "", "show 5 busy \"abYc\"\n"),
            (Step::Receive(REFUSED), "", "show 5 busy \"abYc\"\n"),
            (Step::Deliver, "Replied", "show 5 busy \"abYc\"\n"),
            (Step::Deliver, "Ignored", "show 5 busy \"abYc\"\n"),
            (
                Step::Deliver,
                "RefusedBy(-32005)",
                "show 5 closed \"abYc\"\n",
            ),
            (
                Step::Deliver,
                "no frame is under way",
                "show 5 closed \"abYc\"\n",
            ),
        ],
    )
}

#[test]
fn a_cut_ends_all_that_is_under_way(rt: HostRuntime) -> Result<(), Fail> {
    let again =
        r#"{"id":3,"jsonrpc":"2.0","method":"open","params":{"content":"a\n","uri":"file:///work/src/a%20b.rs"}}"#;
    assert_steps(
        &rt,
        "a",
        &[
            (Step::Close, "", "show 5 busy \"a\"\n"),
            (Step::Receive(SUCCESS), "", "show 5 busy \"a\"\n"),
            (Step::Cut, "", "show 5 lost \"a\"\n"),
            (Step::Type(1, 0, "\n"), "", "show 5 lost \"a\\n\"\n"),
            (Step::Up, "nothing", "show 5 lost \"a\\n\"\n"),
            (Step::OpenOn(8), "", "show 5 busy \"a\\n\"\n"),
            (Step::Up, again, "show 5 quiet \"a\\n\"\n"),
            (
                Step::Deliver,
                "no frame is under way",
                "show 5 quiet \"a\\n\"\n",
            ),
        ],
    )
}

#[test]
fn opens_again_where_it_is(rt: HostRuntime) -> Result<(), Fail> {
    let close =
        r#"{"id":2,"jsonrpc":"2.0","method":"close","params":{"uri":"file:///work/src/a%20b.rs"}}"#;
    let open =
        r#"{"id":3,"jsonrpc":"2.0","method":"open","params":{"content":"ab","uri":"file:///work/src/a%20b.rs"}}"#;
    assert_steps(
        &rt,
        "ab",
        &[
            (Step::Close, "", "show 5 busy \"ab\"\n"),
            (Step::Open, "", "show 5 busy \"ab\"\n"),
            (
                Step::Up,
                r#"{"id":1,"jsonrpc":"2.0","method":"open","params":{"content":"ab","uri":"file:///work/src/a%20b.rs"}}"#,
                "show 5 busy \"ab\"\n",
            ),
            (Step::Up, close, "show 5 busy \"ab\"\n"),
            (Step::Up, open, "show 5 quiet \"ab\"\n"),
            (
                Step::Type(2, 1, ""),
                "the text has 2 characters",
                "show 5 quiet \"ab\"\n",
            ),
        ],
    )
}

#[test]
fn shows_what_it_is_sent(rt: HostRuntime) -> Result<(), Fail> {
    assert_steps(
        &rt,
        "ab",
        &[
            (Step::Receive(SUCCESS), "", "show 5 busy \"ab\"\n"),
            (Step::Receive(X_BEFORE), "", "show 5 busy \"ab\"\n"),
            (Step::Deliver, "Replied", "show 5 busy \"ab\"\n"),
            (Step::Deliver, "Shown", "show 5 busy \"aXb\"\n"),
        ],
    )
}

#[test]
fn a_frame_is_one_body_that_is_a_message(rt: HostRuntime) -> Result<(), Fail> {
    let alloc = rt.alloc();
    for (frame, told) in [
        ("", "the frame is not one body"),
        ("Content-Length: 3\r\n\r\n{}", "the frame is not one body"),
        (
            "Content-Length: 2\r\n\r\n{}Content-Length: 2\r\n\r\n{}",
            "the frame is not one body",
        ),
        ("Content-Type: x\r\n\r\n", "the frame is not one body"),
        ("Content-Length: 2\r\n\r\n{}", "the body is no message"),
        ("Content-Length: 2\r\n\r\n{}\n", "the body is no message"),
    ] {
        let mut editor = joined(alloc, "ab")?;
        editor.receive(Blob::from_vec(String::from_str(alloc, frame)?.into_bytes()))?;
        receive(alloc, &mut editor, SUCCESS)?;
        let given = deliver(alloc, &mut editor)?;
        assert!(rt;
            given.as_slice() == told.as_bytes(),
            "{frame} does not tell {told}"
        );
    }
    Ok(())
}

#[test]
fn prints_refusals_alone(rt: HostRuntime) -> Result<(), Fail> {
    for (note, line) in [
        (HeardNote::RefusedBy(-32005), "refused 12 -32005\n"),
        (HeardNote::Shown, ""),
        (HeardNote::Ignored, ""),
        (HeardNote::Replied, ""),
        (HeardNote::Other, ""),
    ] {
        let told = write_note(rt.alloc(), 12, note)?;
        assert_eq!(rt; told.as_str(), line);
    }
    Ok(())
}

#[test]
fn tells_its_faults(rt: HostRuntime) -> Result<(), Fail> {
    for (fault, text) in [
        (DeliverFault::NoFrame, "no frame is under way"),
        (DeliverFault::NotOneBody, "the frame is not one body"),
        (DeliverFault::NoMessage, "the body is no message"),
        (DeliverFault::Memory, "out of memory"),
    ] {
        let told = format!(in rt.alloc(); "{fault}")?;
        assert_eq!(rt; told.as_str(), text);
    }
    Ok(())
}
