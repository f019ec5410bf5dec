use rpc_message::{
    Cause, FromEditor, Incoming, Member, MessageFault, MessageId, Refusal, ToEditor, method_table,
    read_message, read_reply, round_trips, write_message, write_request,
};
use std::alloc::{AllocError, Global};
use std::process::Abort;
use std::test::Fail;
use tt_base::{Blob, List, Position, Text, TextEdit, Uri};

/// The id of the requests that the tests write.
const ID: u64 = 7;

const PARSE_ERROR: &str =
    r#"{"error":{"code":-32700,"message":"parse error"},"id":null,"jsonrpc":"2.0"}"#;

const SHUTDOWN: &str = r#"{"id":7,"jsonrpc":"2.0","method":"shutdown","params":{}}"#;

/// The daemon's edit of one replacement in the first line.
const EDIT: &str =
    r#"{"jsonrpc":"2.0","method":"edit","params":{"delta":[{"range":{"end":{"character":1,"line":0},"start":{"character":1,"line":0}},"replacement":"X"}],"revision":1,"uri":"file:///work/f"}}"#;

const CLASH: &str =
    r#"{"error":{"code":-32007,"data":{"given":"68656c6c6f","held":"00ff"},"message":"two changes have one name"},"id":2,"jsonrpc":"2.0"}"#;

/// Bodies that are no request, and whose id is null or cannot be read.
const INVALID: &str = r#"[]
{}
{"jsonrpc":"2.0","id":1.5,"method":"shutdown"}
{"jsonrpc":"2.0","id":1e0,"method":"shutdown"}
{"jsonrpc":"2.0","id":[],"method":"shutdown"}
{"jsonrpc":"2.0","id":18446744073709551616,"method":"shutdown"}
{"jsonrpc":"2.0","id":-9223372036854775809,"method":"shutdown"}
{"jsonrpc":"2.0","result":1}"#;

/// Bodies that are no request, and whose id is 2.
const INVALID_WITH_ID: &str = r#"{"id":2,"method":"shutdown"}
{"jsonrpc":"1.0","id":2,"method":"shutdown"}
{"jsonrpc":"2.0","id":2,"method":3,"result":0}
{"jsonrpc":"2.0","id":2}
{"jsonrpc":"2.0","id":2,"result":1,"error":2}"#;

/// Requests whose parameters are no object.
const BAD_PARAMS: &str = r#"{"jsonrpc":"2.0","id":-1,"method":"open","params":[]}
{"jsonrpc":"2.0","id":-1,"method":"open","params":null}"#;

/// Requests in whose parameters `uri` is the first bad member.
const BAD_URIS: &str = r#"{"jsonrpc":"2.0","id":-1,"method":"open","params":{"content":"a"}}
{"jsonrpc":"2.0","id":-1,"method":"open","params":{"uri":["u"],"content":1}}
{"jsonrpc":"2.0","id":-1,"method":"close","params":{}}
{"jsonrpc":"2.0","id":-1,"method":"close","params":{"uri":"u","uri":0}}
{"jsonrpc":"2.0","id":-1,"method":"edit","params":{"revision":0,"delta":[]}}
{"jsonrpc":"2.0","id":-1,"method":"cursor","params":{"ranges":[]}}"#;

/// The same for `content`.
const BAD_CONTENTS: &str = r#"{"jsonrpc":"2.0","id":-1,"method":"open","params":{"uri":"u"}}
{"jsonrpc":"2.0","id":-1,"method":"open","params":{"uri":"u","content":null}}"#;

/// The same for `revision`.
const BAD_REVISIONS: &str =
    r#"{"jsonrpc":"2.0","id":-1,"method":"edit","params":{"uri":"u","delta":0}}
{"jsonrpc":"2.0","id":-1,"method":"edit","params":{"uri":"u","revision":1.0,"delta":[]}}
{"jsonrpc":"2.0","id":-1,"method":"edit","params":{"uri":"u","revision":1e0,"delta":[]}}
{"jsonrpc":"2.0","id":-1,"method":"edit","params":{"uri":"u","revision":-1,"delta":[]}}
{"jsonrpc":"2.0","id":-1,"method":"edit","params":{"uri":"u","revision":18446744073709551616}}"#;

/// The same for `delta`.
const BAD_DELTAS: &str =
    r#"{"jsonrpc":"2.0","id":-1,"method":"edit","params":{"uri":"u","revision":0}}
{"jsonrpc":"2.0","id":-1,"method":"edit","params":{"uri":"u","revision":0,"delta":{}}}
{"jsonrpc":"2.0","id":-1,"method":"edit","params":{"uri":"u","revision":0,"delta":[{"replacement":"x"}]}}
{"jsonrpc":"2.0","id":-1,"method":"edit","params":{"uri":"u","revision":0,"delta":[{"range":{"start":{"line":0,"character":0},"end":{"line":0,"character":0}}}]}}
{"jsonrpc":"2.0","id":-1,"method":"edit","params":{"uri":"u","revision":0,"delta":[{"range":{"start":{"line":0,"character":0},"end":{"line":0,"character":0.5}},"replacement":"x"}]}}"#;

/// The same for `ranges`.
const BAD_RANGES: &str = r#"{"jsonrpc":"2.0","id":-1,"method":"cursor","params":{"uri":"u"}}
{"jsonrpc":"2.0","id":-1,"method":"cursor","params":{"uri":"u","ranges":[{}]}}
{"jsonrpc":"2.0","id":-1,"method":"cursor","params":{"uri":"u","ranges":[{"start":{"line":0},"end":{"line":0,"character":0}}]}}"#;

/// Two lines each: the body of a message to an editor, and the message.
const REPLIES: &str = r#"{"id":1,"jsonrpc":"2.0","result":"success"}
Success(Number(1))
{"id":-9223372036854775808,"jsonrpc":"2.0","result":"success"}
Success(Below(-9223372036854775808))
{"error":{"code":-32700,"message":"parse error"},"id":null,"jsonrpc":"2.0"}
Refused(Null, ParseError)
{"error":{"code":-32600,"message":"invalid request"},"id":2,"jsonrpc":"2.0"}
Refused(Number(2), InvalidRequest)
{"error":{"code":-32601,"message":"method not found"},"id":2,"jsonrpc":"2.0"}
Refused(Number(2), UnknownMethod)
{"error":{"code":-32602,"data":{"member":"delta"},"message":"invalid params"},"id":2,"jsonrpc":"2.0"}
Refused(Number(2), BadParams(Delta))
{"error":{"code":-32001,"message":"file is not open"},"id":2,"jsonrpc":"2.0"}
Refused(Number(2), NotOpen)
{"error":{"code":-32002,"message":"file is already open"},"id":2,"jsonrpc":"2.0"}
Refused(Number(2), AlreadyOpen)
{"error":{"code":-32003,"data":{"cause":"DotPart"},"message":"bad uri"},"id":2,"jsonrpc":"2.0"}
Refused(Number(2), BadUri(DotPart))
{"error":{"code":-32004,"data":{"edit":3},"message":"bad position"},"id":2,"jsonrpc":"2.0"}
Refused(Number(2), BadPosition(3))
{"error":{"code":-32005,"data":{"confirmed":0,"issued":0,"seen":5},"message":"bad revision"},"id":2,"jsonrpc":"2.0"}
Refused(Number(2), BadRevision { confirmed: 0, issued: 0, seen: 5 })
{"error":{"code":-32006,"data":{"length":1048577},"message":"text too long"},"id":2,"jsonrpc":"2.0"}
Refused(Number(2), TextTooLong(1048577))
{"error":{"code":-32008,"data":{"edit":0},"message":"backward range"},"id":2,"jsonrpc":"2.0"}
Refused(Number(2), BackwardRange(0))
"#;

/// Values that are no message to an editor.
const NO_REPLIES: &str = r#"[]
{"id":1,"jsonrpc":"2.0","result":"done"}
{"id":1,"jsonrpc":"2.0","more":0,"result":"success"}
{"error":{"code":32001,"message":"file is not open"},"id":2,"jsonrpc":"2.0"}
{"error":{"code":-32001,"message":"parse error"},"id":2,"jsonrpc":"2.0"}
{"error":{"code":-32004,"message":"bad position"},"id":2,"jsonrpc":"2.0"}
{"error":{"code":-32007,"data":{"given":"AB","held":"ab"},"message":"two changes have one name"},"id":2,"jsonrpc":"2.0"}
{"id":1,"jsonrpc":"2.0","method":"edit","params":{"delta":[],"revision":0,"uri":"u"}}
{"jsonrpc":"2.0","method":"cursor","params":{"delta":[],"revision":0,"uri":"u"}}"#;

// The calls under test. They have no clause here: the tests compare what runs, and their proofs need no fact of it.

fn hear(alloc: Global, body: &[u8]) -> Result<Incoming, MessageFault> {
    read_message(alloc, body)
}

fn reply_in(alloc: Global, body: &str) -> Result<ToEditor, MessageFault> {
    read_reply(alloc, body.as_bytes())
}

fn written(alloc: Global, message: &ToEditor) -> Result<Blob, AllocError> {
    write_message(alloc, message)
}

/// A response is no request, and is written as nothing.
fn asked(alloc: Global, message: &FromEditor) -> Result<Blob, AllocError> {
    if message.is_response() {
        Blob::empty(alloc)
    } else {
        write_request(alloc, ID, message)
    }
}

/// The answer to a request that succeeds. A notification has none.
fn success(alloc: Global, id: Option<MessageId>) -> Result<Blob, AllocError> {
    match id {
        Some(id) => written(alloc, &ToEditor::Success(id)),
        None => Blob::empty(alloc),
    }
}

/// The answer to a request that is refused for this cause. A notification has none.
fn refusal(alloc: Global, id: Option<MessageId>, cause: Cause) -> Result<Blob, AllocError> {
    match id {
        Some(id) => written(alloc, &ToEditor::Refused(id, Refusal::from(cause))),
        None => Blob::empty(alloc),
    }
}

/// The answer to a body, which succeeds where it is a message.
fn answer(alloc: Global, body: &[u8]) -> Result<Blob, AllocError> {
    match hear(alloc, body) {
        Ok(Incoming { id, message: _ }) => success(alloc, id),
        Err(MessageFault::Refused { id, cause }) => refusal(alloc, id, cause),
        Err(MessageFault::Memory) => Err(AllocError),
    }
}

/// The request that a body is, written with the id of the tests.
fn request(alloc: Global, body: &str) -> Result<Blob, MessageFault> {
    let heard = hear(alloc, body.as_bytes())?;
    Ok(asked(alloc, &heard.message)?)
}

fn assert_answer(rt: &(impl Abort + AllocGlobal), body: &[u8], expected: &str) -> Result<(), Fail> {
    let answer = answer(rt.alloc(), body)?;
    assert!(rt; answer.as_slice() == expected.as_bytes(), "not {expected}");
    Ok(())
}

/// Each line is a body, and all are answered alike.
fn assert_answers(
    rt: &(impl Abort + AllocGlobal),
    bodies: &str,
    expected: &str,
) -> Result<(), Fail> {
    for body in bodies.lines() {
        assert_answer(rt, body.as_bytes(), expected)?;
    }
    Ok(())
}

/// The body is answered with this, and it is this request.
fn assert_heard(
    rt: &(impl Abort + AllocGlobal),
    body: &str,
    expected: &str,
    asked: &str,
) -> Result<(), Fail> {
    assert_answer(rt, body.as_bytes(), expected)?;
    let request = request(rt.alloc(), body)?;
    assert!(rt; request.as_slice() == asked.as_bytes(), "not {asked}");
    Ok(())
}

#[test]
fn what_is_no_json_is_refused(rt: HostRuntime) -> Result<(), Fail> {
    assert_answers(&rt, "{\n{\"id\":1}}", PARSE_ERROR)?;
    assert_answer(&rt, b"", PARSE_ERROR)?;
    assert_answer(&rt, b"{\"id\":\"\xff\"}", PARSE_ERROR)
}

#[test]
fn what_is_no_request_is_refused(rt: HostRuntime) -> Result<(), Fail> {
    assert_answers(
        &rt,
        INVALID,
        r#"{"error":{"code":-32600,"message":"invalid request"},"id":null,"jsonrpc":"2.0"}"#,
    )
}

#[test]
fn what_is_no_request_is_refused_with_its_id(rt: HostRuntime) -> Result<(), Fail> {
    assert_answers(
        &rt,
        INVALID_WITH_ID,
        r#"{"error":{"code":-32600,"message":"invalid request"},"id":2,"jsonrpc":"2.0"}"#,
    )
}

#[test]
fn unknown_methods_are_refused_with_their_ids(rt: HostRuntime) -> Result<(), Fail> {
    assert_answer(
        &rt,
        r#"{"jsonrpc":"2.0","id":"aä","method":"save"}"#.as_bytes(),
        r#"{"error":{"code":-32601,"message":"method not found"},"id":"aä","jsonrpc":"2.0"}"#,
    )?;
    assert_answer(
        &rt,
        br#"{"jsonrpc":"2.0","id":null,"method":"Open"}"#,
        r#"{"error":{"code":-32601,"message":"method not found"},"id":null,"jsonrpc":"2.0"}"#,
    )
}

fn assert_fault(rt: &(impl Abort + AllocGlobal), body: &str, expected: &str) -> Result<(), Fail> {
    let fault = hear(rt.alloc(), body.as_bytes()).err();
    let shown = format!(in rt.alloc(); "{fault:?}")?;
    assert!(rt; shown.as_str() == expected, "{shown}");
    Ok(())
}

#[test]
fn faults_of_notifications_have_no_id(rt: HostRuntime) -> Result<(), Fail> {
    assert_fault(
        &rt,
        r#"{"jsonrpc":"2.0","method":"save"}"#,
        "Some(Refused { id: None, cause: UnknownMethod })",
    )?;
    assert_fault(
        &rt,
        r#"{"jsonrpc":"2.0","method":"open","params":[]}"#,
        "Some(Refused { id: None, cause: BadParams(Params) })",
    )
}

#[test]
fn bad_parameters_are_named(rt: HostRuntime) -> Result<(), Fail> {
    assert_answers(
        &rt,
        BAD_PARAMS,
        r#"{"error":{"code":-32602,"data":{"member":"params"},"message":"invalid params"},"id":-1,"jsonrpc":"2.0"}"#,
    )
}

#[test]
fn bad_uris_are_named(rt: HostRuntime) -> Result<(), Fail> {
    assert_answers(
        &rt,
        BAD_URIS,
        r#"{"error":{"code":-32602,"data":{"member":"uri"},"message":"invalid params"},"id":-1,"jsonrpc":"2.0"}"#,
    )
}

#[test]
fn bad_contents_are_named(rt: HostRuntime) -> Result<(), Fail> {
    assert_answers(
        &rt,
        BAD_CONTENTS,
        r#"{"error":{"code":-32602,"data":{"member":"content"},"message":"invalid params"},"id":-1,"jsonrpc":"2.0"}"#,
    )
}

#[test]
fn bad_revisions_are_named(rt: HostRuntime) -> Result<(), Fail> {
    assert_answers(
        &rt,
        BAD_REVISIONS,
        r#"{"error":{"code":-32602,"data":{"member":"revision"},"message":"invalid params"},"id":-1,"jsonrpc":"2.0"}"#,
    )
}

#[test]
fn bad_deltas_are_named(rt: HostRuntime) -> Result<(), Fail> {
    assert_answers(
        &rt,
        BAD_DELTAS,
        r#"{"error":{"code":-32602,"data":{"member":"delta"},"message":"invalid params"},"id":-1,"jsonrpc":"2.0"}"#,
    )
}

#[test]
fn bad_ranges_are_named(rt: HostRuntime) -> Result<(), Fail> {
    assert_answers(
        &rt,
        BAD_RANGES,
        r#"{"error":{"code":-32602,"data":{"member":"ranges"},"message":"invalid params"},"id":-1,"jsonrpc":"2.0"}"#,
    )
}

#[test]
fn opening_and_closing_are_heard(rt: HostRuntime) -> Result<(), Fail> {
    assert_heard(
        &rt,
        r#"{"jsonrpc":"2.0","id":1,"method":"open","params":{"uri":"file:///work/src/main.rs","content":"fn main() {\r\n}\r\n"}}"#,
        r#"{"id":1,"jsonrpc":"2.0","result":"success"}"#,
        r#"{"id":7,"jsonrpc":"2.0","method":"open","params":{"content":"fn main() {\r\n}\r\n","uri":"file:///work/src/main.rs"}}"#,
    )?;
    assert_heard(
        &rt,
        r#"{"jsonrpc":"2.0","method":"close","params":{"uri":"\u00e4\u0001","more":[1.5]},"result":0}"#,
        "",
        r#"{"id":7,"jsonrpc":"2.0","method":"close","params":{"uri":"ä\u0001"}}"#,
    )
}

#[test]
fn edits_are_heard(rt: HostRuntime) -> Result<(), Fail> {
    assert_heard(
        &rt,
        r#"{"jsonrpc":"2.0","id":-9223372036854775808,"method":"edit","params":{"uri":"u","revision":18446744073709551615,"delta":[]}}"#,
        r#"{"id":-9223372036854775808,"jsonrpc":"2.0","result":"success"}"#,
        r#"{"id":7,"jsonrpc":"2.0","method":"edit","params":{"delta":[],"revision":18446744073709551615,"uri":"u"}}"#,
    )?;
    assert_heard(
        &rt,
        r#"{"jsonrpc":"2.0","id":6,"method":"edit","params":{"uri":"u","revision":0,"delta":[{"range":{"start":{"line":0,"character":1},"end":{"line":2,"character":3}},"replacement":"\"\\/😀"}]}}"#,
        r#"{"id":6,"jsonrpc":"2.0","result":"success"}"#,
        r#"{"id":7,"jsonrpc":"2.0","method":"edit","params":{"delta":[{"range":{"end":{"character":3,"line":2},"start":{"character":1,"line":0}},"replacement":"\"\\/😀"}],"revision":0,"uri":"u"}}"#,
    )
}

#[test]
fn cursors_are_heard(rt: HostRuntime) -> Result<(), Fail> {
    assert_heard(
        &rt,
        r#"{"jsonrpc":"2.0","id":18446744073709551615,"method":"cursor","params":{"uri":"u","ranges":[{"start":{"line":0,"character":1},"end":{"line":2,"character":3}}]}}"#,
        r#"{"id":18446744073709551615,"jsonrpc":"2.0","result":"success"}"#,
        r#"{"id":7,"jsonrpc":"2.0","method":"cursor","params":{"ranges":[{"end":{"character":3,"line":2},"start":{"character":1,"line":0}}],"uri":"u"}}"#,
    )
}

#[test]
fn a_shutdown_is_heard(rt: HostRuntime) -> Result<(), Fail> {
    assert_heard(
        &rt,
        r#"{"jsonrpc":"2.0","id":null,"method":"shutdown","params":3,"error":0}"#,
        r#"{"id":null,"jsonrpc":"2.0","result":"success"}"#,
        SHUTDOWN,
    )?;
    assert_heard(
        &rt,
        r#"{"jsonrpc":"2.0","method":"shutdown"}"#,
        "",
        SHUTDOWN,
    )
}

#[test]
fn responses_are_heard(rt: HostRuntime) -> Result<(), Fail> {
    assert_heard(
        &rt,
        r#"{"jsonrpc":"2.0","id":"","result":null}"#,
        r#"{"id":"","jsonrpc":"2.0","result":"success"}"#,
        "",
    )?;
    assert_heard(
        &rt,
        r#"{"jsonrpc":"2.0","id":5,"error":{}}"#,
        r#"{"id":5,"jsonrpc":"2.0","result":"success"}"#,
        "",
    )
}

/// A `shutdown` whose parameters nest so deep.
fn nested(alloc: Global, depth: usize) -> Result<String, AllocError> {
    let mut body = String::from_str(alloc, r#"{"jsonrpc":"2.0","method":"shutdown","params":"#)?;
    body.push_str("[".repeat(alloc, depth)?.as_str())?;
    body.push_str("]".repeat(alloc, depth)?.as_str())?;
    body.push('}')?;
    Ok(body)
}

#[test]
fn bodies_nest_127_deep(rt: HostRuntime) -> Result<(), Fail> {
    let deepest = nested(rt.alloc(), 126)?;
    assert_heard(&rt, deepest.as_str(), "", SHUTDOWN)?;
    let deeper = nested(rt.alloc(), 127)?;
    assert_answer(&rt, deeper.as_bytes(), PARSE_ERROR)
}

/// The message to an editor that a body is, or why it is none.
fn shown(alloc: Global, body: &str) -> Result<String, AllocError> {
    match reply_in(alloc, body) {
        Ok(message) => format!(in alloc; "{message:?}"),
        Err(fault) => format!(in alloc; "{fault}"),
    }
}

fn assert_shown(rt: &(impl Abort + AllocGlobal), body: &str, expected: &str) -> Result<(), Fail> {
    let shown = shown(rt.alloc(), body)?;
    assert!(rt; shown.as_str() == expected, "{body}");
    Ok(())
}

#[test]
fn replies_are_read(rt: HostRuntime) -> Result<(), Fail> {
    let lines: Vec<&str> = REPLIES.lines().collect(rt.alloc())?;
    assert_eq!(rt; lines.len(), 26);
    for row in lines.chunks(2) {
        if let [body, message] = row {
            assert_shown(&rt, body, message)?;
        }
    }
    Ok(())
}

#[test]
fn what_is_no_reply_is_refused(rt: HostRuntime) -> Result<(), Fail> {
    for body in NO_REPLIES.lines() {
        assert_shown(&rt, body, "invalid request")?;
    }
    assert_shown(&rt, "{", "parse error")
}

/// The message to an editor that a body is, written again.
fn rewritten(alloc: Global, body: &str) -> Result<Blob, MessageFault> {
    let message = reply_in(alloc, body)?;
    Ok(written(alloc, &message)?)
}

fn assert_rewritten(rt: &(impl Abort + AllocGlobal), body: &str) -> Result<(), Fail> {
    let again = rewritten(rt.alloc(), body)?;
    assert!(rt; again.as_slice() == body.as_bytes(), "{body}");
    Ok(())
}

#[test]
fn replies_have_one_spelling(rt: HostRuntime) -> Result<(), Fail> {
    for body in REPLIES.lines().step_by(2) {
        assert_rewritten(&rt, body)?;
    }
    assert_rewritten(&rt, EDIT)?;
    assert_rewritten(&rt, CLASH)
}

/// So many replacements in the first line.
fn replacements(alloc: Global, count: usize) -> Result<List<TextEdit>, AllocError> {
    let place = Position {
        line: 0,
        character: 1,
    };
    let mut edits = List::empty(alloc)?;
    for _ in 0..count {
        let replacement = Text::from_str(alloc, "X")?;
        let edit = TextEdit {
            start: place,
            end: place,
            replacement,
        };
        edits.push(alloc, edit)?;
    }
    Ok(edits)
}

/// The daemon's edits of so many replacements in the first line.
fn edit_of(alloc: Global, count: usize) -> Result<Blob, AllocError> {
    let edits = replacements(alloc, count)?;
    let uri = Uri::from_str(alloc, "file:///work/f")?;
    let message = ToEditor::Edit {
        uri,
        revision: 1,
        edits,
    };
    written(alloc, &message)
}

#[test]
fn edits_are_written(rt: HostRuntime) -> Result<(), Fail> {
    let edit = edit_of(rt.alloc(), 1)?;
    assert_eq!(rt; edit.len(), 184);
    assert!(rt; edit.as_slice() == EDIT.as_bytes());
    let many = edit_of(rt.alloc(), 300)?;
    assert_eq!(rt; many.len(), 184 + 299 * 94);
    Ok(())
}

/// How many edits are in the daemon's edit that a body is.
fn count_of_edits(alloc: Global, body: &[u8]) -> Option<usize> {
    match read_reply(alloc, body) {
        Ok(ToEditor::Edit { edits, .. }) => Some(edits.len()),
        _ => None,
    }
}

#[test]
fn many_edits_are_read(rt: HostRuntime) -> Result<(), Fail> {
    let many = edit_of(rt.alloc(), 300)?;
    assert_eq!(rt; count_of_edits(rt.alloc(), many.as_slice()), Some(300));
    Ok(())
}

fn clash(alloc: Global) -> Result<Blob, AllocError> {
    let given = Blob::from_vec(Vec::from_slice(alloc, b"hello")?);
    let held = Blob::from_vec(Vec::from_slice(alloc, b"\x00\xff")?);
    let message = ToEditor::Refused(MessageId::Number(2), Refusal::Clash { given, held });
    written(alloc, &message)
}

#[test]
fn clashes_are_written(rt: HostRuntime) -> Result<(), Fail> {
    let clash = clash(rt.alloc())?;
    assert!(rt; clash.as_slice() == CLASH.as_bytes());
    Ok(())
}

#[test]
fn a_written_reply_comes_back(rt: HostRuntime) -> Result<(), Fail> {
    let success = ToEditor::Success(MessageId::Number(ID));
    let reply = round_trips::reply_comes_back(rt.alloc(), &success)?;
    assert!(rt; matches!(reply, ToEditor::Success(MessageId::Number(ID))));
    Ok(())
}

#[test]
fn a_written_request_comes_back(rt: HostRuntime) -> Result<(), Fail> {
    let asked = round_trips::request_comes_back(rt.alloc(), ID, &FromEditor::Shutdown)?;
    assert!(rt; matches!(asked.message, FromEditor::Shutdown));
    Ok(())
}

#[test]
fn causes_have_texts(rt: HostRuntime) -> Result<(), Fail> {
    for (cause, text) in [
        (Cause::ParseError, "parse error"),
        (Cause::InvalidRequest, "invalid request"),
        (Cause::UnknownMethod, "method not found"),
        (Cause::BadParams(Member::Uri), "invalid params"),
    ] {
        let shown = cause.to_string(rt.alloc())?;
        assert!(rt; shown.as_str() == text);
    }
    Ok(())
}

#[test]
fn want_of_memory_has_a_text(rt: HostRuntime) -> Result<(), Fail> {
    let shown = MessageFault::Memory.to_string(rt.alloc())?;
    assert!(rt; shown.as_str() == "out of memory");
    Ok(())
}

#[test]
fn methods_are_found_by_name(rt: HostRuntime) {
    assert!(rt; method_table().find_word("edit") == Some(3));
    assert!(rt; method_table().find_word("save").is_none());
    assert!(rt; method_table().find_number(6).is_none());
}
