use super::*;
use std::alloc::{AllocError, Global};
use std::process::Abort;
use std::test::Fail;

/// What reading the text as a path gives: the path's text, or the refusal.
fn assert_reads(
    rt: &(impl Abort + AllocGlobal),
    text: &str,
    expected: Result<(), PathFault>,
) -> Result<(), Fail> {
    match SharedPath::read(rt.alloc(), text) {
        Ok(path) => {
            assert_eq!(rt; expected, Ok(()), "{text} is a path");
            assert_eq!(rt; path.as_str(), text);
            assert!(rt; path.copied(rt.alloc())? == path);
        }
        Err(fault) => assert_eq!(rt; expected, Err(fault), "{text} is no path"),
    }
    Ok(())
}

#[test]
fn a_path_is_refused_for_the_first_rule_that_it_breaks(rt: HostRuntime) -> Result<(), Fail> {
    let deepest = "a/".repeat(rt.alloc(), 31)?;
    let longest = "a".repeat(rt.alloc(), 1024)?;
    let deep = format!(in rt.alloc(); "{deepest}a/a")?;
    let long = format!(in rt.alloc(); "{longest}\0")?;
    let cases = [
        ("a/b.txt", Ok(())),
        ("ä b/.gitignore", Ok(())),
        (longest.as_str(), Ok(())),
        ("", Err(PathFault::Empty)),
        ("a//b", Err(PathFault::Empty)),
        ("a/", Err(PathFault::Empty)),
        ("/a", Err(PathFault::Absolute)),
        ("a/../b", Err(PathFault::DotPart)),
        ("./.git", Err(PathFault::DotPart)),
        (".git/x", Err(PathFault::Reserved)),
        ("x/.teamd", Err(PathFault::Reserved)),
        ("/\0", Err(PathFault::NulByte)),
        (deep.as_str(), Err(PathFault::TooDeep)),
        (long.as_str(), Err(PathFault::TooLong)),
    ];
    for (text, expected) in cases {
        assert_reads(&rt, text, expected)?;
    }
    Ok(())
}

#[test]
fn each_fault_has_its_text(rt: HostRuntime) -> Result<(), Fail> {
    let cases = [
        (PathFault::TooLong, "the path has more than 1024 bytes"),
        (PathFault::NulByte, "the path has a NUL byte"),
        (PathFault::Absolute, "the path is absolute"),
        (PathFault::Empty, "the path has an empty part"),
        (PathFault::DotPart, "the path has a part `.` or `..`"),
        (
            PathFault::Reserved,
            "the path has a reserved part, `.git` or `.teamd`",
        ),
        (PathFault::TooDeep, "the path has more than 32 parts"),
        (PathFault::Memory, "out of memory"),
    ];
    for (fault, said) in cases {
        assert_eq!(rt; format!(in rt.alloc(); "{fault}")?.as_str(), said);
    }
    Ok(())
}

#[test]
fn paths_are_ordered_by_their_bytes(rt: HostRuntime) -> Result<(), Fail> {
    let upper = SharedPath::read(rt.alloc(), "Z").ok().ok_or("no path")?;
    let lower = SharedPath::read(rt.alloc(), "a").ok().ok_or("no path")?;
    assert!(rt; upper < lower);
    Ok(())
}

#[test]
fn a_text_counts_scalar_values(rt: HostRuntime) -> Result<(), Fail> {
    let mut text = Text::from_str(rt.alloc(), "a😀")?;
    text.push(rt.alloc(), 'b')?;
    assert_eq!(rt; text.len(), 3);
    assert_eq!(rt; text.char_at(1), '😀');
    assert!(rt; text.copied(rt.alloc())? == text);
    assert_eq!(rt; text.to_bytes(rt.alloc())?.as_slice(), "a😀b".as_bytes());
    assert!(rt; Text::empty(rt.alloc())?.is_empty());
    let part = text.copied_range(rt.alloc(), 1, 3)?;
    assert_eq!(rt; part, Text::from_str(rt.alloc(), "😀b")?);
    Ok(())
}

#[test]
fn lists_hold_what_was_pushed(rt: HostRuntime) -> Result<(), Fail> {
    let mut blob = Blob::empty(rt.alloc())?;
    blob.push(rt.alloc(), 7)?;
    assert_eq!(rt; blob.len(), 1);
    assert_eq!(rt; blob.at(0), 7);
    assert!(rt; blob.copied(rt.alloc())? == blob);
    let mut list = List::<Blob>::empty(rt.alloc())?;
    assert!(rt; list.is_empty());
    list.push(rt.alloc(), Blob::from_vec(blob.into_vec()))?;
    assert_eq!(rt; list.len(), 1);
    assert_eq!(rt; list.at(0).as_slice(), [7].as_slice());
    assert_eq!(rt; List::from_vec(list.into_vec()).as_slice().len(), 1);
    Ok(())
}

/// Three letters, of one, two and four bytes, two thousand times: more than one page.
fn long_words(alloc: Global) -> Result<String, AllocError> {
    let words = "aß😀".repeat(alloc, 2000)?;
    Ok(words)
}

#[test]
fn a_long_text_is_held_whole(rt: HostRuntime) -> Result<(), Fail> {
    let words = long_words(rt.alloc())?;
    let text = Text::from_str(rt.alloc(), words.as_str())?;
    assert_eq!(rt; text.len(), 6000);
    assert!(rt; text.copied(rt.alloc())? == text);
    assert_eq!(rt;
        text.to_bytes(rt.alloc())?.as_slice(),
        words.as_str().as_bytes()
    );
    Ok(())
}

#[test]
fn a_long_text_is_pushed_together(rt: HostRuntime) -> Result<(), Fail> {
    let mut letters = Text::empty(rt.alloc())?;
    for _ in 0..2000u16 {
        for ch in ['a', 'ß', '😀'] {
            letters.push(rt.alloc(), ch)?;
        }
    }
    assert_eq!(rt;
        letters.to_bytes(rt.alloc())?.as_slice(),
        long_words(rt.alloc())?.as_str().as_bytes()
    );
    Ok(())
}

#[test]
fn long_bytes_are_held_whole(rt: HostRuntime) -> Result<(), Fail> {
    let mut bytes = Blob::empty(rt.alloc())?;
    for _ in 0..2000u16 {
        for byte in "aß😀".as_bytes() {
            bytes.push(rt.alloc(), *byte)?;
        }
    }
    assert_eq!(rt;
        bytes.copied(rt.alloc())?.as_slice(),
        long_words(rt.alloc())?.as_str().as_bytes()
    );
    Ok(())
}

#[test]
fn a_long_list_is_held_whole(rt: HostRuntime) -> Result<(), Fail> {
    let mut texts = List::<Text>::empty(rt.alloc())?;
    for _ in 0..5000u16 {
        texts.push(rt.alloc(), Text::from_str(rt.alloc(), "aß")?)?;
    }
    assert_eq!(rt; texts.len(), 5000);
    let said = Text::from_str(rt.alloc(), "aß")?;
    for held in texts.as_slice() {
        assert!(rt; *held == said);
    }
    Ok(())
}

#[test]
fn a_long_uri_is_held_whole(rt: HostRuntime) -> Result<(), Fail> {
    let words = long_words(rt.alloc())?;
    let uri = Uri::from_str(rt.alloc(), words.as_str())?;
    assert_eq!(rt; uri.as_str(), words.as_str());
    Ok(())
}

/// A text of lines of three characters, the LF counted.
fn lines(alloc: Global, count: usize) -> Result<Text, AllocError> {
    let said = "ab\n".repeat(alloc, count)?;
    Text::from_str(alloc, said.as_str())
}

/// So many lines, with a text in place of a range.
fn spliced(
    alloc: Global,
    count: usize,
    start: usize,
    end: usize,
    put: &Text,
) -> Result<Text, AllocError> {
    let mut text = lines(alloc, count)?;
    if start <= end && end <= text.len() {
        text.splice_text(alloc, start, end, put)?;
    }
    Ok(text)
}

/// The same, put together anew from what stands before the range, the text and what stands behind.
fn joined(
    alloc: Global,
    count: usize,
    start: usize,
    end: usize,
    put: &Text,
) -> Result<Text, AllocError> {
    let text = lines(alloc, count)?;
    let mut whole = Vec::new(alloc);
    if start <= end && end <= text.len() {
        text.runs(0).copy_to(&mut whole, start)?;
        put.append_to(&mut whole)?;
        text.runs(end).copy_to(&mut whole, text.len() - end)?;
    }
    Text::from_vec(alloc, whole)
}

/// Where the text that is put in, or the text itself, is one page and where it is more.
#[test]
fn a_text_is_changed_in_place(rt: HostRuntime) -> Result<(), Fail> {
    let alloc = rt.alloc();
    for (count, start, end, added) in [
        (1, 1, 2, 2),
        (3000, 4000, 8000, 1),
        (3000, 1024, 1024, 5000),
    ] {
        let put = Text::from_str(alloc, "x".repeat(alloc, added)?.as_str())?;
        let changed = spliced(alloc, count, start, end, &put)?;
        assert!(rt; changed == joined(alloc, count, start, end, &put)?);
    }
    Ok(())
}

#[test]
fn a_range_of_a_long_text_is_copied(rt: HostRuntime) -> Result<(), Fail> {
    let text = lines(rt.alloc(), 3000)?;
    assert!(rt; 7500 <= text.len());
    let part = text.copied_range(rt.alloc(), 1500, 7500)?;
    assert!(rt; part == lines(rt.alloc(), 2000)?);
    assert!(rt; part != text);
    Ok(())
}

#[test]
fn lines_are_found_in_a_long_text(rt: HostRuntime) -> Result<(), Fail> {
    let mut text = lines(rt.alloc(), 3000)?;
    assert_eq!(rt; text.len(), 9000);
    for (line, place) in [(0, 0), (1, 3), (341, 1023), (2000, 6000), (3000, 9000)] {
        assert!(rt; place <= text.len());
        assert_eq!(rt; text.line_ends_before(place), line);
        assert_eq!(rt; text.behind_line_ends(line), Some(place));
    }
    text.splice(rt.alloc(), 0, 0, &['y'])?;
    assert!(rt; 0 < text.len());
    assert_eq!(rt; text.char_at(0), 'y');
    Ok(())
}

#[test]
fn a_uri_is_any_text(rt: HostRuntime) -> Result<(), Fail> {
    let uri = Uri::from_str(rt.alloc(), "file:///work/a b")?;
    assert_eq!(rt; uri.as_str(), "file:///work/a b");
    Ok(())
}

#[test]
fn ids_are_one_where_all_fields_are(rt: HostRuntime) -> Result<(), Fail> {
    let id = ElemId {
        depth: 3,
        actor: Actor([1; 16]),
        name: Name([2; 32]),
        index: 4,
    };
    assert!(rt; id.equals(&id));
    assert!(rt; !id.equals(&ElemId { depth: 4, ..id }));
    assert!(rt;
        !id.equals(&ElemId {
            actor: Actor([2; 16]),
            ..id
        })
    );
    assert!(rt;
        !id.equals(&ElemId {
            name: Name([1; 32]),
            ..id
        })
    );
    assert!(rt; !id.equals(&ElemId { index: 3, ..id }));
    Ok(())
}
