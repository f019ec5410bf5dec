use daemon_world::{PlayEnd, World};
use replay_script::{Move, read_line};
use std::alloc::{AllocError, Global};
use std::process::Abort;
use std::test::Fail;

const OPEN: &str =
    "{\"id\":1,\"jsonrpc\":\"2.0\",\"method\":\"open\",\"params\":{\"content\":\"ab\",\"uri\":\"file:///work/f\"}}";

const EDIT: &str = concat!(
    "{\"jsonrpc\":\"2.0\",\"method\":\"edit\",\"params\":{\"delta\":[{\"range\":{\"end\":{\"character\":2,\"line\":0},",
    "\"start\":{\"character\":2,\"line\":0}},\"replacement\":\"c\"}],\"revision\":0,\"uri\":\"file:///work/f\"}}"
);

const SHUTDOWN: &str = "{\"id\":1,\"jsonrpc\":\"2.0\",\"method\":\"shutdown\"}";

const SUCCESS: &str = "{\"id\":1,\"jsonrpc\":\"2.0\",\"result\":\"success\"}";

const PARSE_ERROR: &str =
    "{\"error\":{\"code\":-32700,\"message\":\"parse error\"},\"id\":null,\"jsonrpc\":\"2.0\"}";

/// The frame of a body.
fn frame(alloc: Global, body: &str) -> Result<String, AllocError> {
    let length = body.len();
    format!(in alloc; "Content-Length: {length}\r\n\r\n{body}")
}

/// The line by which connection 7 of daemon 0 hears this.
fn hear(alloc: Global, text: &str) -> Result<String, AllocError> {
    let digits = hex::encode(alloc, text.as_bytes())?;
    format!(in alloc; "hear 0 7 {digits}")
}

/// What is printed where daemon 0 sends this body on connection 7.
fn told(alloc: Global, body: &str) -> Result<String, AllocError> {
    let frame = frame(alloc, body)?;
    let digits = hex::encode(alloc, frame.as_bytes())?;
    format!(in alloc; "told 0 7 {digits}\n")
}

/// The call under test. It has no clause: the tests compare what runs, and their proofs need none of the call's facts.
fn play(alloc: Global, world: &mut World, moved: &Move) -> Result<String, PlayEnd> {
    world.play(alloc, moved)
}

/// Plays the moves of these lines, and gives all that they print.
fn play_lines(alloc: Global, world: &mut World, lines: &[&str]) -> Result<String, Fail> {
    let mut printed = String::new(alloc);
    for line in lines {
        if let Some(moved) = read_line(alloc, line)? {
            let more = play(alloc, world, &moved)?;
            printed.push_str(more.as_str())?;
        }
    }
    Ok(printed)
}

/// Compares what a new world prints of the moves of these lines.
fn assert_prints(
    rt: &(impl Abort + AllocGlobal),
    lines: &[&str],
    printed: &str,
) -> Result<(), Fail> {
    let mut world = World::new(rt.alloc())?;
    let all = play_lines(rt.alloc(), &mut world, lines)?;
    assert_eq!(rt; all.as_str(), printed);
    assert_eq!(rt; world.moves(), lines.len() as u64);
    Ok(())
}

/// Compares how the last of these lines ends where those before it are played.
fn assert_is_not_possible(
    rt: &(impl Abort + AllocGlobal),
    lines: &[&str],
    last: &str,
) -> Result<(), Fail> {
    let alloc = rt.alloc();
    let mut world = World::new(alloc)?;
    let _ = play_lines(alloc, &mut world, lines)?;
    let moves = world.moves();
    let moved = read_line(alloc, last)?.ok_or("no move")?;
    assert_eq!(rt;
        play(alloc, &mut world, &moved).err(),
        Some(PlayEnd::NotPossible)
    );
    assert_eq!(rt; world.moves(), moves);
    Ok(())
}

#[test]
fn an_edit_comes_to_its_daemon(rt: HostRuntime) -> Result<(), Fail> {
    let lines = [
        "daemon 0",
        "editor 0 0 f \"abc\"",
        "settle 0",
        "type 0 1 1 \"X\"",
        "show 0",
        "file 0 f",
        "settle 0",
        "show 0",
        "file 0 f",
        "held 0",
    ];
    let printed =
        "show 0 busy \"aXc\"\nfile 0 f \"abc\"\nshow 0 quiet \"aXc\"\nfile 0 f \"aXc\"\nheld 0 2\n";
    assert_prints(&rt, &lines, printed)
}

#[test]
fn editors_meet(rt: HostRuntime) -> Result<(), Fail> {
    let lines = [
        "daemon 0",
        "editor 0 0 f \"ab\"",
        "editor 1 0 f \"ab\"",
        "settle 0",
        "settle 1",
        "type 0 1 0 \"X\"",
        "type 1 1 0 \"Y\"",
        "up 0",
        "down 1",
        "show 1",
        "up 1",
        "settle 0",
        "settle 1",
        "show 0",
        "show 1",
    ];
    let printed = "show 1 busy \"aYb\"\nshow 0 quiet \"aXYb\"\nshow 1 quiet \"aXYb\"\n";
    assert_prints(&rt, &lines, printed)
}

#[test]
fn daemons_and_files_are_apart(rt: HostRuntime) -> Result<(), Fail> {
    let lines = [
        "daemon 0",
        "daemon 1",
        "editor 0 0 f \"a\"",
        "editor 1 1 f \"b\"",
        "editor 2 0 g/h.txt \"c\"",
        "editor 3 0 f \"d\"",
        "settle 0",
        "settle 1",
        "settle 2",
        "settle 3",
        "type 3 1 0 \"!\"",
        "settle 3",
        "settle 0",
        "show 0",
        "show 1",
        "show 2",
        "file 0 g/h.txt",
        "file 1 f",
        "file 1 x",
    ];
    let printed =
        "show 0 quiet \"a!\"\nshow 1 quiet \"b\"\nshow 2 quiet \"c\"\nfile 0 g/h.txt \"c\"\nfile 1 f \"b\"\nfile 1 x absent\n";
    assert_prints(&rt, &lines, printed)
}

#[test]
fn an_editor_closes_opens_and_is_cut_off(rt: HostRuntime) -> Result<(), Fail> {
    let lines = [
        "daemon 0",
        "editor 0 0 f \"ab\"",
        "editor 1 0 f \"ab\"",
        "settle 0",
        "settle 1",
        "close 0",
        "settle 0",
        "show 0",
        "type 1 1 0 \"Y\"",
        "settle 1",
        "open 0",
        "settle 0",
        "show 0",
        "cut 0",
        "type 0 0 0 \"Z\"",
        "show 0",
        "open 0",
        "settle 0",
        "show 0",
    ];
    let printed =
        "show 0 closed \"ab\"\nshow 0 quiet \"aYb\"\nshow 0 lost \"ZaYb\"\nshow 0 quiet \"aYb\"\n";
    assert_prints(&rt, &lines, printed)
}

#[test]
fn a_refusal_is_told(rt: HostRuntime) -> Result<(), Fail> {
    let lines = [
        "daemon 0",
        "editor 0 0 f \"a\"*1048576",
        "settle 0",
        "type 0 0 0 \"b\"",
        "settle 0",
        "held 0",
        "open 0",
        "settle 0",
        "type 0 0 1 \"\"",
        "settle 0",
        "held 0",
    ];
    assert_prints(&rt, &lines, "refused 0 -32006\nheld 0 1\nheld 0 2\n")
}

#[test]
fn a_script_feeds_a_connection(rt: HostRuntime) -> Result<(), Fail> {
    // The connection opens the file and edits it, in pieces, and the editor is told. Then come a body that is no JSON, and a header
    // that is none.
    let alloc = rt.alloc();
    let open = hear(alloc, frame(alloc, OPEN)?.as_str())?;
    let edit = hear(alloc, frame(alloc, EDIT)?.as_str())?;
    let brace = hear(alloc, frame(alloc, "{")?.as_str())?;
    let no_header = hear(alloc, "Content-Length: x")?;
    let begun = hear(alloc, "Content-Le")?;
    let rest = hear(alloc, "ngth: 1\r\n\r\n{")?;
    let lines = [
        "daemon 0",
        "editor 0 0 f \"ab\"",
        "settle 0",
        "begin 0 7 editor",
        open.as_str(),
        edit.as_str(),
        "settle 0",
        "show 0",
        brace.as_str(),
        begun.as_str(),
        rest.as_str(),
        no_header.as_str(),
        "begin 0 7 editor",
        "end 0 7",
    ];
    let success = told(alloc, SUCCESS)?;
    let error = told(alloc, PARSE_ERROR)?;
    let printed = format!(in alloc; "{success}show 0 quiet \"abc\"\n{error}{error}hung 0 7\n")?;
    assert_prints(&rt, &lines, printed.as_str())
}

#[test]
fn a_shutdown_ends_all_connections_of_its_daemon(rt: HostRuntime) -> Result<(), Fail> {
    let alloc = rt.alloc();
    let shutdown = hear(alloc, frame(alloc, SHUTDOWN)?.as_str())?;
    let lines = [
        "daemon 0",
        "daemon 1",
        "editor 0 0 f \"a\"",
        "editor 1 1 f \"a\"",
        "settle 0",
        "settle 1",
        "begin 0 7 editor",
        shutdown.as_str(),
        "show 0",
        "show 1",
        "type 0 0 1 \"\"",
        "show 0",
    ];
    let success = told(alloc, SUCCESS)?;
    let printed = format!(in alloc;
        "{success}show 0 lost \"a\"\nshow 1 quiet \"a\"\nshow 0 lost \"\"\n"
    )?;
    assert_prints(&rt, &lines, printed.as_str())?;
    assert_is_not_possible(&rt, &lines, "held 0")?;
    assert_is_not_possible(&rt, &lines, "open 0")?;
    assert_is_not_possible(&rt, &lines, "cut 0")?;
    assert_is_not_possible(&rt, &lines, "hear 0 7 00")
}

#[test]
fn moves_that_are_not_possible_change_nothing(rt: HostRuntime) -> Result<(), Fail> {
    let none: [&str; 0] = [];
    assert_is_not_possible(&rt, &none, "daemon 1")?;
    assert_is_not_possible(&rt, &none, "show 0")?;
    assert_is_not_possible(&rt, &none, "link 0 1")?;
    let one = ["daemon 0", "editor 0 0 f \"ab\"", "settle 0"];
    assert_is_not_possible(&rt, &one, "up 0")?;
    assert_is_not_possible(&rt, &one, "down 0")?;
    assert_is_not_possible(&rt, &one, "settle 1")?;
    assert_is_not_possible(&rt, &one, "type 0 1 2 \"\"")?;
    assert_is_not_possible(&rt, &one, "open 0")?;
    assert_is_not_possible(&rt, &one, "editor 2 0 f \"\"")?;
    assert_is_not_possible(&rt, &one, "editor 1 1 f \"\"")?;
    assert_is_not_possible(&rt, &one, "begin 0 4294967296 editor")?;
    assert_is_not_possible(&rt, &one, "hear 0 4294967296 00")?;
    assert_is_not_possible(&rt, &one, "end 0 7")
}

#[test]
fn faults_are_told_in_words(rt: HostRuntime) -> Result<(), Fail> {
    let alloc = rt.alloc();
    let not_possible = PlayEnd::NotPossible.to_string(alloc)?;
    assert_eq!(rt; not_possible.as_str(), "the move is not possible");
    let memory = PlayEnd::Memory.to_string(alloc)?;
    assert_eq!(rt; memory.as_str(), "out of memory");
    Ok(())
}
