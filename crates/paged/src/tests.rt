use super::*;
use std::alloc::{AllocError, Global};
use std::process::Abort;
use std::test::Fail;

/// So many characters, of which each fortieth ends a line.
fn lines(alloc: Global, count: usize) -> Result<Vec<char>, AllocError> {
    let mut chars = Vec::with_capacity(alloc, count)?;
    for i in 0..count {
        chars.push(if i % 40 == 39 { '\n' } else { 'a' })?;
    }
    Ok(chars)
}

/// The list has these items, and tells its marked ones as they stand in them.
fn assert_holds(
    rt: &(impl Abort + AllocGlobal),
    list: &Paged<char>,
    items: &[char],
) -> Result<(), Fail> {
    assert_eq!(rt; list.to_vec(rt.alloc())?.as_slice(), items);
    assert_eq!(rt; list.len(), items.len());
    assert_eq!(rt; list.is_empty(), items.is_empty());
    let mut ends = 0usize;
    for (i, item) in items.iter().enumerate() {
        assert!(rt; i < list.len());
        assert_eq!(rt; list.at(i), *item);
        assert_eq!(rt; list.marked_before(i), ends);
        if *item == '\n' {
            ends = ends.wrapping_add(1);
            assert_eq!(rt; list.behind(ends), Some(i.wrapping_add(1)));
        }
    }
    assert_eq!(rt; list.behind(ends.wrapping_add(1)), None);
    let start = items.len() / 3;
    let end = items.len() / 2;
    assert!(rt; start <= end && end <= list.len() && end <= items.len());
    let mut runs = list.runs(start);
    let mut part = Vec::new(rt.alloc());
    runs.copy_to(&mut part, end - start)?;
    assert_eq!(rt; part.as_slice(), &items[start..end]);
    let copy = list.copied(rt.alloc())?;
    assert_eq!(rt; copy.to_vec(rt.alloc())?.as_slice(), items);
    Ok(())
}

#[test]
fn a_list_is_spliced(rt: HostRuntime) -> Result<(), Fail> {
    // how many characters, from where to where others replace them, how many, and the lengths of the
    // pages after it
    let cases = [
        (0, 0, 0, 0, [].as_slice()),
        (0, 0, 0, 7, [7].as_slice()),
        (1024, 0, 0, 0, [1024].as_slice()),
        (1024, 512, 512, 1, [512, 513].as_slice()),
        (1025, 512, 512, 1, [513, 513].as_slice()),
        (1025, 513, 513, 512, [512, 512, 513].as_slice()),
        (1537, 512, 1024, 0, [512, 513].as_slice()),
        (1537, 600, 601, 0, [512, 1024].as_slice()),
        (1537, 1100, 1102, 0, [512, 1023].as_slice()),
        (1537, 10, 1530, 1, [18].as_slice()),
        (
            5000,
            100,
            4900,
            3000,
            [512, 512, 512, 512, 512, 640].as_slice(),
        ),
        (5000, 0, 5000, 0, [].as_slice()),
    ];
    for (count, start, end, more, lengths) in cases {
        let mut chars = lines(rt.alloc(), count)?;
        let mut list = Paged::from_slice(rt.alloc(), chars.as_slice())?;
        let run = lines(rt.alloc(), more)?;
        assert!(rt; start <= end && end <= list.len() && end <= chars.len());
        list.splice(rt.alloc(), start, end, run.as_slice())?;
        chars.splice(start..end, run)?;
        assert_holds(&rt, &list, chars.as_slice())?;
        let found: Vec<usize> = list.pages().iter().map(List::len).collect(rt.alloc())?;
        assert_eq!(rt; found.as_slice(), lengths, "{count} {start} {end} {more}");
    }
    Ok(())
}

#[test]
fn items_are_added_one_at_a_time(rt: HostRuntime) -> Result<(), Fail> {
    let chars = lines(rt.alloc(), 1600)?;
    let mut list = Paged::<char>::empty(rt.alloc());
    for item in &chars {
        list.push(rt.alloc(), *item)?;
    }
    assert_holds(&rt, &list, chars.as_slice())?;
    let mut list = Paged::<char>::empty(rt.alloc());
    for item in chars.iter().rev() {
        list.insert(rt.alloc(), 0, *item)?;
    }
    assert_holds(&rt, &list, chars.as_slice())?;
    Ok(())
}
