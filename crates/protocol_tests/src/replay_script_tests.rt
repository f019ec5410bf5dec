use replay_script::{LineFault, Move, read_line, write_line, write_path, write_text};
use std::process::Abort;
use std::test::Fail;
use tt_base::{SharedPath, Text};

/// The line asks for a move, and this line is written for it.
fn assert_asks(rt: &(impl Abort + AllocGlobal), line: &str, written: &str) -> Result<(), Fail> {
    let moved = read_line(rt.alloc(), line)?.ok_or("no move")?;
    let text = write_line(rt.alloc(), &moved)?;
    assert_eq!(rt; text.as_str(), written, "from {line}");
    Ok(())
}

#[test]
fn each_move_is_read_and_written(rt: HostRuntime) -> Result<(), Fail> {
    let lines = [
        "daemon 0",
        r#"load 1 "file:///w/" 00ff"#,
        r#"editor 0 1 f "a b""#,
        r#"type 0 1 1 "X""#,
        "up 1",
        "down 2",
        "settle 3",
        "close 4",
        "open 5",
        "cut 6",
        "show 18446744073709551615",
        "file 0 a/b_c-d.txt",
        "held 0",
        "link 0 1",
        "pass 0 1 2",
        "copy 3 4 5",
        "sync 0 1 100",
        "unlink 0 1",
        "outside 0 f absent",
        "outside 0 f larger",
        r#"outside 0 "a b" "text""#,
        r#"outside 0 f """#,
        "report 0 f hex ff",
        "sweep 0",
        "disk 0 f",
        "crash 0",
        "restart 0",
        "stop 0 1 lost",
        "stop 0 2 kept",
        "stop 0 3 torn",
        "begin 0 7 editor",
        "begin 0 7 peer",
        "hear 0 7 0a",
        "end 0 7",
    ];
    for line in lines {
        assert_asks(&rt, line, line)?;
    }
    Ok(())
}

#[test]
fn other_spellings_are_read(rt: HostRuntime) -> Result<(), Fail> {
    let cases = [
        (r#"file 0 "f""#, "file 0 f"),
        (r#"file 0 "a"*3"#, "file 0 aaa"),
        (r#"file 0 "\u{e4}""#, r#"file 0 "ä""#),
        (r#"type 0 0 0 "\"\\\n\r\t""#, r#"type 0 0 0 "\"\\\n\r\t""#),
        (
            r#"type 0 0 0 "\u{00}\u{7f}\u{1b}""#,
            r#"type 0 0 0 "\u{0}\u{7f}\u{1b}""#,
        ),
        (
            r#"type 0 0 0 "\u{000061}\u{10ffff}""#,
            "type 0 0 0 \"a\u{10ffff}\"",
        ),
        (r#"type 0 0 0 "\u{22} \" ä""#, r#"type 0 0 0 "\" \" ä""#),
        (r#"type 0 0 0 "ab"*3"#, r#"type 0 0 0 "ababab""#),
        (r#"type 0 0 0 ""*4194304"#, r#"type 0 0 0 """#),
        (r#"load 0 "a \" b"*2 00"#, r#"load 0 "a \" ba \" b" 00"#),
        ("outside 0 f hex 61", r#"outside 0 f "a""#),
        ("outside 0 f hex c3", "outside 0 f hex c3"),
    ];
    for (line, written) in cases {
        assert_asks(&rt, line, written)?;
    }
    Ok(())
}

#[test]
fn lines_outside_the_grammar(rt: HostRuntime) {
    let lines = [
        "up",
        "up ",
        "up 01",
        "up +1",
        "up 1 ",
        " up 1",
        "up  1",
        "up\t1",
        "up 1\r",
        "up 18446744073709551616",
        "up 1 2",
        "Up 1",
        "ups 1",
        "link 0",
        " #",
        "editor 0 0 f",
        r#"editor 0 0 f "a"b"#,
        "type 0 0 0 X",
        "type 0 0 0 \"a\tb\"",
        "type 0 0 0 \"a\u{7f}\"",
        r#"type 0 0 0 "a"#,
        r#"type 0 0 0 "a"b""#,
        r#"type 0 0 0 "\a""#,
        r#"type 0 0 0 "\u{d800}""#,
        r#"type 0 0 0 "\u{110000}""#,
        r#"type 0 0 0 "\u{0000061}""#,
        r#"type 0 0 0 "\u{}""#,
        r#"type 0 0 0 "\u{E4}""#,
        r#"type 0 0 0 "\u{61""#,
        r#"type 0 0 0 "\u61""#,
        r#"type 0 0 0 "a"*0"#,
        r#"type 0 0 0 "a"*01"#,
        r#"type 0 0 0 "a"*"#,
        r#"type 0 0 0 "a"*4194305"#,
        r#"type 0 0 0 "abcde"*4194304"#,
        r#"type 0 0 0 "ab"*8388609"#,
        "file 0 ",
        "file 0 a//b",
        "file 0 ä",
        "file 0 a b",
        r#"file 0 "a/../b""#,
        r#"file 0 "a"*1025"#,
        r#"file 0 """#,
        "outside 0 f gone",
        "outside 0 f hex",
        "outside 0 f hex ",
        "report 0 f hex FF",
        "stop 0 1 Lost",
        "begin 0 7 daemon",
        "hear 0 7 ",
        "hear 0 7 0",
        "hear 0 7 0A",
        "hear 0 7 0a0",
    ];
    for line in lines {
        let refused = matches!(read_line(rt.alloc(), line), Err(LineFault::NotAMove));
        assert!(rt; refused, "{line}");
    }
}

#[test]
fn lines_that_ask_for_nothing(rt: HostRuntime) -> Result<(), Fail> {
    for line in ["", "#", "# up 1", "#\r"] {
        assert!(rt; read_line(rt.alloc(), line)?.is_none(), "{line}");
    }
    Ok(())
}

#[test]
fn a_text_may_be_spelled_many_times(rt: HostRuntime) -> Result<(), Fail> {
    let moved = read_line(rt.alloc(), r#"type 0 0 0 "a"*4194304"#)?;
    let Some(Move::Typed(0, 0, 0, text)) = moved else {
        return Err(Fail::from("another move"));
    };
    assert_eq!(rt; text.len(), 4_194_304);
    Ok(())
}

#[test]
fn texts_and_paths_are_written(rt: HostRuntime) -> Result<(), Fail> {
    let path = SharedPath::read(rt.alloc(), "a b")?;
    assert_eq!(rt; write_path(rt.alloc(), &path)?.as_str(), r#""a b""#);
    let text = Text::from_str(rt.alloc(), "a\0\"😀")?;
    assert_eq!(rt; write_text(rt.alloc(), &text)?.as_str(), r#""a\u{0}\"😀""#);
    Ok(())
}

#[test]
fn a_fault_says_what_it_is(rt: HostRuntime) -> Result<(), Fail> {
    assert_eq!(rt;
        LineFault::NotAMove.to_string(rt.alloc())?.as_str(),
        "the line is no move"
    );
    assert_eq!(rt;
        LineFault::Memory.to_string(rt.alloc())?.as_str(),
        "out of memory"
    );
    Ok(())
}
