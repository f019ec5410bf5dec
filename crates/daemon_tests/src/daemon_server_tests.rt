use daemon_core::{Event, Output};
use daemon_server::Daemon;
use file_uri::Base;
use std::alloc::{AllocError, Global};
use std::process::Abort;
use std::test::Fail;
use tt_base::{Blob, List, SharedPath, Text};

/// A daemon of /work with so many editors, from number 1 on.
fn daemon(alloc: Global, editors: u64) -> Result<Daemon, Fail> {
    let mut daemon = Daemon::new(alloc, Base::read(alloc, "file:///work/")?);
    for n in 1..=editors {
        handle(alloc, &mut daemon, Event::EditorBegan(n))?;
    }
    Ok(daemon)
}

fn handle(alloc: Global, daemon: &mut Daemon, event: Event) -> Result<List<Output>, AllocError> {
    if daemon.has_room() {
        daemon.handle(alloc, event)
    } else {
        Err(AllocError)
    }
}

/// What is sent, a line each: the connection and the frame, whose ends of lines are told by bars.
fn told(alloc: Global, sent: &[Output]) -> Result<String, Fail> {
    let mut all = String::new(alloc);
    for output in sent {
        match output {
            Output::Send(n, frame) => {
                let frame = String::from_utf8(frame.copied(alloc)?.into_vec())?;
                let line = format!(in alloc; "{n} {frame}\n")?;
                all.push_str(line.as_str())?;
            }
            Output::HangUp(_) => all.push_str("end\n")?,
            Output::Notice(_) => all.push_str("notice\n")?,
            Output::Shutdown => all.push_str("stop\n")?,
        }
    }
    Ok(all)
}

/// An editor sends a body, and just this is sent.
fn assert_sends(
    rt: &(impl Abort + AllocGlobal),
    daemon: &mut Daemon,
    n: u64,
    body: &str,
    expected: &str,
) -> Result<(), Fail> {
    let alloc = rt.alloc();
    let body = Blob::from_vec(String::from_str(alloc, body)?.into_bytes());
    let sent = handle(alloc, daemon, Event::EditorFrame(n, body))?;
    let told = told(alloc, sent.as_slice())?;
    assert_eq!(rt; told.as_str(), expected);
    Ok(())
}

fn assert_file(
    rt: &(impl Abort + AllocGlobal),
    daemon: &Daemon,
    path: &str,
    expected: &str,
) -> Result<(), Fail> {
    let alloc = rt.alloc();
    let path = SharedPath::read(alloc, path)?;
    let expected = Text::from_str(alloc, expected)?;
    assert!(rt; daemon.view(&path).is_some_and(|text| *text == expected));
    Ok(())
}

const OPEN: &str =
    r#"{"jsonrpc":"2.0","id":1,"method":"open","params":{"uri":"file:///work/f","content":"ab"}}"#;

#[test]
fn an_edit_is_carried_past_another_and_that_is_sent_again(rt: HostRuntime) -> Result<(), Fail> {
    let mut daemon = daemon(rt.alloc(), 2)?;
    for (n, body, expected) in [
        (
            1,
            OPEN,
            "1 Content-Length: 43\r\n\r\n{\"id\":1,\"jsonrpc\":\"2.0\",\"result\":\"success\"}\n",
        ),
        (
            2,
            OPEN,
            "2 Content-Length: 43\r\n\r\n{\"id\":1,\"jsonrpc\":\"2.0\",\"result\":\"success\"}\n",
        ),
        (
            1,
            r#"{"jsonrpc":"2.0","id":2,"method":"edit","params":{"uri":"file:///work/f","revision":0,"delta":[{"range":{"start":{"line":0,"character":1},"end":{"line":0,"character":1}},"replacement":"X"}]}}"#,
            "1 Content-Length: 43\r\n\r\n{\"id\":2,\"jsonrpc\":\"2.0\",\"result\":\"success\"}\n2 Content-Length: 184\r\n\r\n{\"jsonrpc\":\"2.0\",\"method\":\"edit\",\"params\":{\"delta\":[{\"range\":{\"end\":{\"character\":1,\"line\":0},\"start\":{\"character\":1,\"line\":0}},\"replacement\":\"X\"}],\"revision\":0,\"uri\":\"file:///work/f\"}}\n",
        ),
        (
            2,
            r#"{"jsonrpc":"2.0","method":"edit","params":{"uri":"file:///work/f","revision":0,"delta":[{"range":{"start":{"line":0,"character":1},"end":{"line":0,"character":1}},"replacement":"Y"}]}}"#,
            "2 Content-Length: 184\r\n\r\n{\"jsonrpc\":\"2.0\",\"method\":\"edit\",\"params\":{\"delta\":[{\"range\":{\"end\":{\"character\":1,\"line\":0},\"start\":{\"character\":1,\"line\":0}},\"replacement\":\"X\"}],\"revision\":1,\"uri\":\"file:///work/f\"}}\n1 Content-Length: 184\r\n\r\n{\"jsonrpc\":\"2.0\",\"method\":\"edit\",\"params\":{\"delta\":[{\"range\":{\"end\":{\"character\":2,\"line\":0},\"start\":{\"character\":2,\"line\":0}},\"replacement\":\"Y\"}],\"revision\":1,\"uri\":\"file:///work/f\"}}\n",
        ),
    ] {
        assert_sends(&rt, &mut daemon, n, body, expected)?;
    }
    assert_file(&rt, &daemon, "f", "aXYb")?;
    assert_eq!(rt; daemon.held(), 3);
    Ok(())
}

#[test]
fn a_plugin_has_five_replies(rt: HostRuntime) -> Result<(), Fail> {
    let mut daemon = daemon(rt.alloc(), 1)?;
    for (body, expected) in [
        (
            r#"{"jsonrpc":"2.0","id":1,"method":"open","params":{"uri":"file:///work/src/main.rs","content":"fn main() {\r\n}\r\n"}}"#,
            "1 Content-Length: 43\r\n\r\n{\"id\":1,\"jsonrpc\":\"2.0\",\"result\":\"success\"}\n",
        ),
        (
            r#"{"jsonrpc":"2.0","id":2,"method":"edit","params":{"uri":"file:///work/src/main.rs","revision":0,"delta":[{"range":{"start":{"line":0,"character":11},"end":{"line":0,"character":11}},"replacement":"\r\n    let x = 1;"}]}}"#,
            "1 Content-Length: 43\r\n\r\n{\"id\":2,\"jsonrpc\":\"2.0\",\"result\":\"success\"}\n",
        ),
        (
            r#"{"jsonrpc":"2.0","id":3,"method":"edit","params":{"uri":"file:///work/src/main.rs","revision":0,"delta":[{"range":{"start":{"line":1,"character":12},"end":{"line":1,"character":13}},"replacement":"2"}]}}"#,
            "1 Content-Length: 43\r\n\r\n{\"id\":3,\"jsonrpc\":\"2.0\",\"result\":\"success\"}\n",
        ),
        (
            r#"{"jsonrpc":"2.0","id":4,"method":"edit","params":{"uri":"file:///work/src/main.rs","revision":0,"delta":[{"range":{"start":{"line":2,"character":1},"end":{"line":3,"character":0}},"replacement":""}]}}"#,
            "1 Content-Length: 43\r\n\r\n{\"id\":4,\"jsonrpc\":\"2.0\",\"result\":\"success\"}\n",
        ),
        (
            r#"{"jsonrpc":"2.0","id":5,"method":"close","params":{"uri":"file:///work/src/main.rs"}}"#,
            "1 Content-Length: 43\r\n\r\n{\"id\":5,\"jsonrpc\":\"2.0\",\"result\":\"success\"}\n",
        ),
    ] {
        assert_sends(&rt, &mut daemon, 1, body, expected)?;
    }
    assert_file(
        &rt,
        &daemon,
        "src/main.rs",
        "fn main() {\r\n    let x = 2;\r\n}",
    )?;
    assert_eq!(rt; daemon.held(), 4);
    Ok(())
}

#[test]
fn refuses_in_order(rt: HostRuntime) -> Result<(), Fail> {
    let mut daemon = daemon(rt.alloc(), 1)?;
    for (body, expected) in [
        (
            r#"{"jsonrpc":"2.0","id":1,"method":"close","params":{"uri":"file:///work/f"}}"#,
            "1 Content-Length: 77\r\n\r\n{\"error\":{\"code\":-32001,\"message\":\"file is not open\"},\"id\":1,\"jsonrpc\":\"2.0\"}\n",
        ),
        (
            r#"{"jsonrpc":"2.0","id":1,"method":"close","params":{"uri":"http://x/f"}}"#,
            "1 Content-Length: 95\r\n\r\n{\"error\":{\"code\":-32003,\"data\":{\"cause\":\"NotFile\"},\"message\":\"bad uri\"},\"id\":1,\"jsonrpc\":\"2.0\"}\n",
        ),
        (
            OPEN,
            "1 Content-Length: 43\r\n\r\n{\"id\":1,\"jsonrpc\":\"2.0\",\"result\":\"success\"}\n",
        ),
        (
            OPEN,
            "1 Content-Length: 81\r\n\r\n{\"error\":{\"code\":-32002,\"message\":\"file is already open\"},\"id\":1,\"jsonrpc\":\"2.0\"}\n",
        ),
        (
            r#"{"jsonrpc":"2.0","id":2,"method":"edit","params":{"uri":"file:///work/f","revision":5,"delta":[]}}"#,
            "1 Content-Length: 116\r\n\r\n{\"error\":{\"code\":-32005,\"data\":{\"confirmed\":0,\"issued\":0,\"seen\":5},\"message\":\"bad revision\"},\"id\":2,\"jsonrpc\":\"2.0\"}\n",
        ),
        (
            r#"{"jsonrpc":"2.0","id":3,"method":"edit","params":{"uri":"file:///work/f","revision":0,"delta":[]}}"#,
            "1 Content-Length: 77\r\n\r\n{\"error\":{\"code\":-32001,\"message\":\"file is not open\"},\"id\":3,\"jsonrpc\":\"2.0\"}\n",
        ),
        (
            r#"{"jsonrpc":"2.0","method":"edit","params":{"uri":"file:///work/f","revision":0,"delta":[]}}"#,
            "",
        ),
        (
            r#"{"jsonrpc":"2.0","id":4,"method":"shutdown"}"#,
            "1 Content-Length: 43\r\n\r\n{\"id\":4,\"jsonrpc\":\"2.0\",\"result\":\"success\"}\nstop\n",
        ),
    ] {
        assert_sends(&rt, &mut daemon, 1, body, expected)?;
    }
    assert_file(&rt, &daemon, "f", "ab")?;
    handle(rt.alloc(), &mut daemon, Event::Ended(1))?;
    Ok(())
}
