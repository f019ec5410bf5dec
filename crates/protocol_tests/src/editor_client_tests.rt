use editor_client::{Client, ClientState, TypeFault};
use std::alloc::{AllocError, Global};
use std::process::Abort;
use std::test::Fail;
use tt_base::{Blob, Text, Uri};

const SUCCESS_1: &str = r#"{"id":1,"jsonrpc":"2.0","result":"success"}"#;

const SUCCESS_2: &str = r#"{"id":2,"jsonrpc":"2.0","result":"success"}"#;

const ERROR_2: &str =
    r#"{"error":{"code":-32005,"data":{"confirmed":0,"issued":0,"seen":5},"message":"bad revision"},"id":2,"jsonrpc":"2.0"}"#;

const ERROR_3: &str =
    r#"{"error":{"code":-32001,"message":"file is not open"},"id":3,"jsonrpc":"2.0"}"#;

const ERROR_9: &str =
    r#"{"error":{"code":-32001,"message":"file is not open"},"id":9,"jsonrpc":"2.0"}"#;

const ERROR_OF_NONE: &str =
    r#"{"error":{"code":-32700,"message":"parse error"},"id":null,"jsonrpc":"2.0"}"#;

const OPEN_AB: &str =
    r#"{"id":1,"jsonrpc":"2.0","method":"open","params":{"content":"ab","uri":"file:///f"}}"#;

const CLOSE_2: &str = r#"{"id":2,"jsonrpc":"2.0","method":"close","params":{"uri":"file:///f"}}"#;

/// The daemon's X at gap 1, made without an edit of the editor.
const X_BEFORE: &str =
    r#"{"jsonrpc":"2.0","method":"edit","params":{"delta":[{"range":{"end":{"character":1,"line":0},"start":{"character":1,"line":0}},"replacement":"X"}],"revision":0,"uri":"file:///f"}}"#;

/// Behind one of them: the first character goes, and then Z stands behind the next.
const Z_BEHIND: &str =
    r#"{"jsonrpc":"2.0","method":"edit","params":{"delta":[{"range":{"end":{"character":1,"line":0},"start":{"character":0,"line":0}},"replacement":""},{"range":{"end":{"character":1,"line":0},"start":{"character":1,"line":0}},"replacement":"Z"}],"revision":1,"uri":"file:///f"}}"#;

const OTHER_URI: &str =
    r#"{"jsonrpc":"2.0","method":"edit","params":{"delta":[],"revision":0,"uri":"file:///g"}}"#;

const BAD_POSITION: &str =
    r#"{"jsonrpc":"2.0","method":"edit","params":{"delta":[{"range":{"end":{"character":3,"line":0},"start":{"character":0,"line":0}},"replacement":"X"}],"revision":0,"uri":"file:///f"}}"#;

const BACKWARD: &str =
    r#"{"jsonrpc":"2.0","method":"edit","params":{"delta":[{"range":{"end":{"character":0,"line":0},"start":{"character":1,"line":0}},"replacement":"X"}],"revision":0,"uri":"file:///f"}}"#;

const CURSOR: &str =
    r#"{"jsonrpc":"2.0","method":"cursor","params":{"ranges":[],"revision":0,"uri":"file:///f","who":1}}"#;

const PARSE_ERROR: &str = "Err(Refused { id: Some(Null), cause: ParseError })";

const INVALID_REQUEST: &str = "Err(Refused { id: Some(Null), cause: InvalidRequest })";

/// What an editor does, or hears.
#[derive(Clone, Copy, Debug)]
enum Step {
    Open,
    Close,
    Lose,
    Type(usize, usize, &'static str),
    Hear(&'static str),
}

/// An editor that shows this text.
fn client(alloc: Global, text: &str) -> Result<Client, AllocError> {
    Client::new(
        alloc,
        Uri::from_str(alloc, "file:///f")?,
        Text::from_str(alloc, text)?,
    )
}

// The calls under test, as what they tell. The tests compare what runs, and their proofs need no fact of it.

fn open(alloc: Global, client: &mut Client) -> Result<Blob, AllocError> {
    if client.state().is_closed() && client.has_room() {
        client.open(alloc)
    } else {
        Err(AllocError)
    }
}

fn close(alloc: Global, client: &mut Client) -> Result<Blob, AllocError> {
    if !client.state().is_closed() && client.has_room() {
        client.close(alloc)
    } else {
        Err(AllocError)
    }
}

fn lose(alloc: Global, client: &mut Client) -> Result<Blob, AllocError> {
    client.lose();
    Blob::empty(alloc)
}

/// The body, nothing, or the fault.
fn type_edit(
    alloc: Global,
    client: &mut Client,
    at: usize,
    gone: usize,
    text: &str,
) -> Result<Blob, AllocError> {
    let text = Text::from_str(alloc, text)?;
    if !client.has_room() {
        return Err(AllocError);
    }
    match client.type_edit(alloc, at, gone, &text) {
        Ok(Some(body)) => Ok(body),
        Ok(None) => Blob::empty(alloc),
        Err(fault) => {
            let told = format!(in alloc; "{fault}")?;
            Ok(Blob::from_vec(told.into_bytes()))
        }
    }
}

fn hear(alloc: Global, client: &mut Client, body: &str) -> Result<Blob, AllocError> {
    if !client.has_room() {
        return Err(AllocError);
    }
    let note = client.hear(alloc, body.as_bytes());
    let told = format!(in alloc; "{note:?}")?;
    Ok(Blob::from_vec(told.into_bytes()))
}

fn told_by(alloc: Global, client: &mut Client, step: Step) -> Result<Blob, AllocError> {
    match step {
        Step::Open => open(alloc, client),
        Step::Close => close(alloc, client),
        Step::Lose => lose(alloc, client),
        Step::Type(at, gone, text) => type_edit(alloc, client, at, gone, text),
        Step::Hear(body) => hear(alloc, client, body),
    }
}

/// What an editor of this text tells of each step, and its state and its text after it.
fn assert_steps(
    rt: &(impl Abort + AllocGlobal),
    text: &str,
    rows: &[(Step, &str, ClientState, &str)],
) -> Result<(), Fail> {
    let alloc = rt.alloc();
    let mut client = client(alloc, text)?;
    for (step, told, state, shown) in rows {
        let given = told_by(alloc, &mut client, *step)?;
        assert!(rt;
            given.as_slice() == told.as_bytes(),
            "{step:?} does not tell {told}"
        );
        assert!(rt;
            client.state() == *state,
            "{step:?} does not lead to {state:?}"
        );
        let text = client.shown().to_string(alloc)?;
        assert!(rt; text.as_str() == *shown, "{step:?} shows {text}");
    }
    Ok(())
}

#[test]
fn begins_closed(rt: HostRuntime) -> Result<(), Fail> {
    let client = client(rt.alloc(), "ab")?;
    assert_eq!(rt; client.shown().len(), 2);
    assert!(rt; client.state().is_closed());
    assert!(rt; client.has_room());
    Ok(())
}

#[test]
fn sends_what_it_does(rt: HostRuntime) -> Result<(), Fail> {
    assert_steps(
        &rt,
        "fn main() {\r\n\t\"ä𝄞\"\n}\n",
        &[
            (
                Step::Open,
                r#"{"id":1,"jsonrpc":"2.0","method":"open","params":{"content":"fn main() {\r\n\t\"ä𝄞\"\n}\n","uri":"file:///f"}}"#,
                ClientState::Opening,
                "fn main() {\r\n\t\"ä𝄞\"\n}\n",
            ),
            (
                Step::Type(15, 2, "x\ny"),
                r#"{"id":2,"jsonrpc":"2.0","method":"edit","params":{"delta":[{"range":{"end":{"character":4,"line":1},"start":{"character":2,"line":1}},"replacement":"x\ny"}],"revision":0,"uri":"file:///f"}}"#,
                ClientState::Opening,
                "fn main() {\r\n\t\"x\ny\"\n}\n",
            ),
            (
                Step::Close,
                r#"{"id":3,"jsonrpc":"2.0","method":"close","params":{"uri":"file:///f"}}"#,
                ClientState::Closed,
                "fn main() {\r\n\t\"x\ny\"\n}\n",
            ),
            (
                Step::Open,
                r#"{"id":4,"jsonrpc":"2.0","method":"open","params":{"content":"fn main() {\r\n\t\"x\ny\"\n}\n","uri":"file:///f"}}"#,
                ClientState::Opening,
                "fn main() {\r\n\t\"x\ny\"\n}\n",
            ),
        ],
    )
}

#[test]
fn types_where_nothing_is_sent(rt: HostRuntime) -> Result<(), Fail> {
    assert_steps(
        &rt,
        "abc",
        &[
            (Step::Type(1, 1, "XY"), "", ClientState::Closed, "aXYc"),
            (Step::Type(4, 0, "\n"), "", ClientState::Closed, "aXYc\n"),
            (Step::Type(0, 5, ""), "", ClientState::Closed, ""),
        ],
    )
}

#[test]
fn types_within_its_text_alone(rt: HostRuntime) -> Result<(), Fail> {
    for step in [
        Step::Type(9, 0, ""),
        Step::Type(2, 0, "x"),
        Step::Type(1, 1, ""),
        Step::Type(0, 2, "x"),
        Step::Type(usize::MAX, usize::MAX, ""),
    ] {
        let told = "the text has 1 characters";
        assert_steps(&rt, "a", &[(step, told, ClientState::Closed, "a")])?;
    }
    Ok(())
}

#[test]
fn the_success_of_its_open_opens(rt: HostRuntime) -> Result<(), Fail> {
    assert_steps(
        &rt,
        "ab",
        &[
            (
                Step::Hear(SUCCESS_1),
                "Ok(Other)",
                ClientState::Closed,
                "ab",
            ),
            (Step::Open, OPEN_AB, ClientState::Opening, "ab"),
            (
                Step::Hear(SUCCESS_2),
                "Ok(Other)",
                ClientState::Opening,
                "ab",
            ),
            (
                Step::Hear(SUCCESS_1),
                "Ok(Replied)",
                ClientState::Open,
                "ab",
            ),
            (Step::Close, CLOSE_2, ClientState::Closed, "ab"),
            (
                Step::Hear(SUCCESS_1),
                "Ok(Replied)",
                ClientState::Closed,
                "ab",
            ),
        ],
    )
}

#[test]
fn an_error_closes(rt: HostRuntime) -> Result<(), Fail> {
    let edit =
        r#"{"id":2,"jsonrpc":"2.0","method":"edit","params":{"delta":[{"range":{"end":{"character":0,"line":0},"start":{"character":0,"line":0}},"replacement":"Y"}],"revision":0,"uri":"file:///f"}}"#;
    assert_steps(
        &rt,
        "ab",
        &[
            (Step::Open, OPEN_AB, ClientState::Opening, "ab"),
            (
                Step::Hear(SUCCESS_1),
                "Ok(Replied)",
                ClientState::Open,
                "ab",
            ),
            (Step::Type(0, 0, "Y"), edit, ClientState::Open, "Yab"),
            (
                Step::Hear(ERROR_2),
                "Ok(RefusedBy(-32005))",
                ClientState::Closed,
                "Yab",
            ),
            (
                Step::Hear(SUCCESS_1),
                "Ok(Replied)",
                ClientState::Closed,
                "Yab",
            ),
        ],
    )
}

#[test]
fn an_error_of_another_request_does_not(rt: HostRuntime) -> Result<(), Fail> {
    let open =
        r#"{"id":3,"jsonrpc":"2.0","method":"open","params":{"content":"ab","uri":"file:///f"}}"#;
    let parse_error = "Ok(RefusedBy(-32700))";
    let not_open = "Ok(RefusedBy(-32001))";
    assert_steps(
        &rt,
        "ab",
        &[
            (Step::Open, OPEN_AB, ClientState::Opening, "ab"),
            (Step::Close, CLOSE_2, ClientState::Closed, "ab"),
            (Step::Open, open, ClientState::Opening, "ab"),
            (
                Step::Hear(ERROR_2),
                "Ok(RefusedBy(-32005))",
                ClientState::Opening,
                "ab",
            ),
            (
                Step::Hear(SUCCESS_1),
                "Ok(Other)",
                ClientState::Opening,
                "ab",
            ),
            (Step::Hear(ERROR_9), not_open, ClientState::Opening, "ab"),
            (
                Step::Hear(ERROR_OF_NONE),
                parse_error,
                ClientState::Opening,
                "ab",
            ),
            (Step::Hear(ERROR_3), not_open, ClientState::Closed, "ab"),
        ],
    )
}

#[test]
fn shows_what_the_daemon_sends(rt: HostRuntime) -> Result<(), Fail> {
    let edit =
        r#"{"id":2,"jsonrpc":"2.0","method":"edit","params":{"delta":[{"range":{"end":{"character":3,"line":0},"start":{"character":2,"line":0}},"replacement":"Yc"}],"revision":1,"uri":"file:///f"}}"#;
    assert_steps(
        &rt,
        "ab",
        &[
            (Step::Open, OPEN_AB, ClientState::Opening, "ab"),
            (
                Step::Hear(X_BEFORE),
                "Ok(Ignored)",
                ClientState::Opening,
                "ab",
            ),
            (
                Step::Hear(SUCCESS_1),
                "Ok(Replied)",
                ClientState::Open,
                "ab",
            ),
            (Step::Hear(X_BEFORE), "Ok(Shown)", ClientState::Open, "aXb"),
            (Step::Type(2, 1, "Yc"), edit, ClientState::Open, "aXYc"),
            (
                Step::Hear(X_BEFORE),
                "Ok(Ignored)",
                ClientState::Open,
                "aXYc",
            ),
            (Step::Hear(Z_BEHIND), "Ok(Shown)", ClientState::Open, "XZYc"),
        ],
    )
}

#[test]
fn passes_over_what_does_not_fit(rt: HostRuntime) -> Result<(), Fail> {
    assert_steps(
        &rt,
        "ab",
        &[
            (Step::Open, OPEN_AB, ClientState::Opening, "ab"),
            (
                Step::Hear(SUCCESS_1),
                "Ok(Replied)",
                ClientState::Open,
                "ab",
            ),
            (Step::Hear(Z_BEHIND), "Ok(Ignored)", ClientState::Open, "ab"),
            (
                Step::Hear(OTHER_URI),
                "Ok(Ignored)",
                ClientState::Open,
                "ab",
            ),
            (
                Step::Hear(BAD_POSITION),
                "Ok(Ignored)",
                ClientState::Open,
                "ab",
            ),
            (Step::Hear(BACKWARD), "Ok(Ignored)", ClientState::Open, "ab"),
            (Step::Lose, "", ClientState::Closed, "ab"),
            (
                Step::Hear(X_BEFORE),
                "Ok(Ignored)",
                ClientState::Closed,
                "ab",
            ),
        ],
    )
}

#[test]
fn hears_messages_alone(rt: HostRuntime) -> Result<(), Fail> {
    for (body, told) in [
        ("{", PARSE_ERROR),
        ("", PARSE_ERROR),
        ("{}", INVALID_REQUEST),
        (OPEN_AB, INVALID_REQUEST),
        (CURSOR, INVALID_REQUEST),
    ] {
        assert_steps(
            &rt,
            "ab",
            &[(Step::Hear(body), told, ClientState::Closed, "ab")],
        )?;
    }
    Ok(())
}

#[test]
fn tells_its_faults(rt: HostRuntime) -> Result<(), Fail> {
    for (fault, text) in [
        (TypeFault::OutOfRange(1), "the text has 1 characters"),
        (TypeFault::Memory, "out of memory"),
    ] {
        let told = format!(in rt.alloc(); "{fault}")?;
        assert_eq!(rt; told.as_str(), text);
    }
    Ok(())
}
