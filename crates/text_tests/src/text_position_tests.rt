use delta::DeltaStep;
use std::alloc::{AllocError, Global};
use std::test::Fail;
use text_position::{BadPosition, EditsFault, from_edits, offset_of, position_of, to_edits};
use tt_base::{Position, Text, TextEdit};

fn at(line: u64, character: u64) -> Position {
    Position { line, character }
}

fn edit(
    alloc: Global,
    start: Position,
    end: Position,
    replacement: &str,
) -> Result<TextEdit, AllocError> {
    Ok(TextEdit {
        start,
        end,
        replacement: Text::from_str(alloc, replacement)?,
    })
}

#[test]
fn a_position_counts_lf_and_scalar_values(rt: HostRuntime) -> Result<(), Fail> {
    let cases = [
        ("a😀b", at(0, 2), Ok(2)),
        ("a😀b", at(0, 3), Ok(3)),
        ("a😀b", at(0, 4), Err(BadPosition)),
        ("a😀b", at(1, 0), Err(BadPosition)),
        ("a\r\nb\n", at(0, 2), Ok(2)),
        ("a\r\nb\n", at(0, 3), Err(BadPosition)),
        ("a\r\nb\n", at(2, 0), Ok(5)),
        ("", at(0, 0), Ok(0)),
    ];
    for (text, position, expected) in cases {
        let text = Text::from_str(rt.alloc(), text)?;
        let found = offset_of(&text, position);
        assert_eq!(rt; found, expected);
        if let Ok(offset) = found {
            assert_eq!(rt; position_of(&text, offset), position);
        }
    }
    Ok(())
}

#[test]
fn edits_apply_one_after_the_other(rt: HostRuntime) -> Result<(), Fail> {
    let alloc = rt.alloc();
    let abc = Text::from_str(alloc, "abc")?;
    let first = edit(alloc, at(0, 1), at(0, 2), "X")?;
    let second = edit(alloc, at(0, 2), at(0, 2), "Y")?;
    let delta = from_edits(alloc, &abc, &[first, second])
        .ok()
        .ok_or("refused")?;
    let want = [
        DeltaStep::Keep(1),
        DeltaStep::Insert(Text::from_str(alloc, "XY")?),
        DeltaStep::Delete(1),
        DeltaStep::Keep(1),
    ];
    assert_eq!(rt; delta.steps().as_slice(), want.as_slice());
    assert_eq!(rt; abc.len(), delta.base_length());
    assert_eq!(rt; delta.apply(alloc, &abc)?, Text::from_str(alloc, "aXYc")?);
    let edits = to_edits(alloc, &abc, &delta)?;
    assert_eq!(rt; edits.len(), 1);
    assert_eq!(rt; edits.at(0).start, at(0, 1));
    assert_eq!(rt; edits.at(0).end, at(0, 2));
    assert_eq!(rt; edits.at(0).replacement, Text::from_str(alloc, "XY")?);
    Ok(())
}

#[test]
fn the_first_bad_edit_is_told(rt: HostRuntime) -> Result<(), Fail> {
    let alloc = rt.alloc();
    let abc = Text::from_str(alloc, "abc")?;
    let good = edit(alloc, at(0, 1), at(0, 2), "X")?;
    let past = edit(alloc, at(0, 9), at(0, 9), "Y")?;
    let backward = edit(alloc, at(0, 2), at(0, 1), "X")?;
    let fault = from_edits(alloc, &abc, &[good, past]).err();
    assert_eq!(rt; fault, Some(EditsFault::BadPosition(1)));
    let fault = from_edits(alloc, &abc, &[backward]).err();
    assert_eq!(rt; fault, Some(EditsFault::BackwardRange(0)));
    Ok(())
}

#[test]
fn each_fault_has_its_text(rt: HostRuntime) -> Result<(), Fail> {
    let alloc = rt.alloc();
    let cases = [
        (
            EditsFault::BadPosition(3),
            "edit 3 has a position that the text does not have",
        ),
        (EditsFault::BackwardRange(0), "edit 0 ends before it starts"),
        (EditsFault::Memory, "out of memory"),
    ];
    for (fault, said) in cases {
        assert_eq!(rt; format!(in alloc; "{fault}")?.as_str(), said);
    }
    let said = format!(in alloc; "{}", BadPosition)?;
    assert_eq!(rt; said.as_str(), "the text has no such position");
    Ok(())
}

/// So many lines, each of some letters `a`, a `b` and LF.
fn lines(alloc: Global, count: u8, letters: &[char]) -> Result<Text, AllocError> {
    let mut chars = Vec::new(alloc);
    for _ in 0..count {
        chars.extend_from_slice(letters)?;
        chars.extend_from_slice(['b', '\n'].as_slice())?;
    }
    Text::from_vec(alloc, chars)
}

/// The edits that make sixty letters of the first of each line.
fn lengthening(alloc: Global, count: u8) -> Result<Vec<TextEdit>, AllocError> {
    let mut edits = Vec::new(alloc);
    for line in 0..count {
        let letters = Vec::from_slice(alloc, ['a'; 60].as_slice())?;
        let replacement = Text::from_vec(alloc, letters)?;
        edits.push(TextEdit {
            start: at(u64::from(line), 0),
            end: at(u64::from(line), 1),
            replacement,
        })?;
    }
    Ok(edits)
}

/// Lists of 3 and of 100 edits, each on its own line, and a result of more than 4,096 characters.
#[test]
fn many_edits_apply_and_come_back(rt: HostRuntime) -> Result<(), Fail> {
    let alloc = rt.alloc();
    for count in [3u8, 100] {
        let before = lines(alloc, count, ['a'].as_slice())?;
        let edits = lengthening(alloc, count)?;
        let delta = from_edits(alloc, &before, edits.as_slice())
            .ok()
            .ok_or("refused")?;
        assert_eq!(rt; before.len(), delta.base_length());
        assert_eq!(rt;
            delta.apply(alloc, &before)?,
            lines(alloc, count, ['a'; 60].as_slice())?
        );
        let back = to_edits(alloc, &before, &delta)?;
        assert_eq!(rt; back.len(), usize::from(count));
        let again = from_edits(alloc, &before, back.as_slice())
            .ok()
            .ok_or("refused")?;
        assert_eq!(rt; again.steps().as_slice(), delta.steps().as_slice());
    }
    Ok(())
}
