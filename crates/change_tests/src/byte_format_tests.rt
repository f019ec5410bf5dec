use byte_format::{Kind, put_names, put_path, put_text, put_u64, read_names, read_path, read_text};
use std::test::Fail;
use tt_base::{Name, SharedPath, Text};

#[test]
fn a_kind_says_why(rt: HostRuntime) -> Result<(), Fail> {
    let rows = [
        (Kind::Magic, "not the mark of this format"),
        (Kind::Short, "the bytes end too early"),
        (Kind::Order, "names do not rise strictly"),
        (Kind::Tag, "unknown tag"),
        (Kind::Path, "not a shared path"),
        (Kind::Utf8, "not UTF-8"),
        (Kind::Zero, "a length or a count of 0"),
        (Kind::Rest, "bytes behind the end"),
    ];
    for (kind, text) in rows {
        assert_eq!(rt; format!(in rt.alloc(); "{kind}")?.as_str(), text);
    }
    Ok(())
}

#[test]
fn what_is_written_is_read(rt: HostRuntime) -> Result<(), Fail> {
    let alloc = rt.alloc();
    let names = [Name([1; 32]), Name([2; 32])];
    let path = SharedPath::read(alloc, "notes/ä.txt")
        .ok()
        .ok_or("no path")?;
    let text = Text::from_str(alloc, "aä😀".repeat(alloc, 50)?.as_str())?;
    let mut out = Vec::new(alloc);
    put_names(&mut out, names.as_slice())?;
    put_path(&mut out, &path)?;
    put_text(alloc, &mut out, &text)?;
    put_u64(&mut out, 7)?;

    let (read, rest) = read_names(alloc, out.as_slice()).ok().ok_or("no names")?;
    assert_eq!(rt; read.as_slice(), names.as_slice());
    let (read, rest) = read_path(alloc, rest).ok().ok_or("no path")?;
    assert!(rt; read == path);
    let (read, rest) = read_text(alloc, rest).ok().ok_or("no text")?;
    assert!(rt; read == text);
    assert_eq!(rt; rest, [0, 0, 0, 0, 0, 0, 0, 7].as_slice());
    Ok(())
}
