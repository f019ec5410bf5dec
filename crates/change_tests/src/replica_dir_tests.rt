use replica_dir::Directory;
use std::alloc::{AllocError, Global};
use std::test::Fail;
use tt_base::{Actor, ElemId, Name, SharedPath};

/// The first id of a change of this depth by this actor.
fn id(depth: u64, actor: u8) -> ElemId {
    ElemId {
        depth,
        actor: Actor([actor; 16]),
        name: Name([actor; 32]),
        index: 0,
    }
}

/// The directory after these events, each of a sign and of the object with this depth and actor: `+`
/// makes it at the path, any other sign removes it.
fn told(alloc: Global, path: &SharedPath, events: &[(char, u8)]) -> Result<Directory, AllocError> {
    let mut directory = Directory::new(alloc)?;
    for (sign, depth) in events {
        let object = id(u64::from(*depth), *depth);
        if *sign == '+' {
            directory.made(alloc, path, object)?;
        } else {
            directory.removed(alloc, &object)?;
        }
    }
    Ok(directory)
}

#[test]
fn winner_is_the_greatest_that_is_live(rt: HostRuntime) -> Result<(), Fail> {
    let alloc = rt.alloc();
    let path = SharedPath::read(alloc, "notes/a.txt")?;
    let other = SharedPath::read(alloc, "notes/b.txt")?;
    let rows: [(&[(char, u8)], Option<u8>, usize); 8] = [
        (&[], None, 0),
        (&[('+', 1), ('+', 2)], Some(2), 2),
        (&[('+', 2), ('+', 1)], Some(2), 2),
        (&[('+', 1), ('+', 2), ('-', 2)], Some(1), 1),
        (&[('+', 1), ('+', 2), ('-', 2), ('-', 1)], None, 0),
        (&[('-', 2), ('+', 1), ('+', 2)], Some(1), 1),
        (&[('-', 1), ('+', 1)], None, 0),
        (&[('+', 3), ('-', 3), ('+', 3)], None, 0),
    ];
    for (events, winner, live) in rows {
        let directory = told(alloc, &path, events)?;
        let expected = match winner {
            Some(depth) => Some(id(u64::from(depth), depth)),
            None => None,
        };
        assert_eq!(rt; directory.winner(&path), expected);
        assert_eq!(rt; directory.live(alloc, &path)?.len(), live);
        assert_eq!(rt; directory.winner(&other), None);
    }
    Ok(())
}

#[test]
fn many_objects_and_paths_are_told_in_order(rt: HostRuntime) -> Result<(), Fail> {
    let alloc = rt.alloc();
    let names = ["b", "a/c", "z", "a", "b/a", "a-b"];
    let mut directory = Directory::new(alloc)?;
    for depth in 0..200u64 {
        let path = SharedPath::read(alloc, names[(depth % 6) as usize])?;
        directory.made(alloc, &path, id(200 - depth, 1))?;
    }
    for depth in 100..200u64 {
        directory.removed(alloc, &id(depth, 1))?;
    }
    let mut paths = String::new(alloc);
    for path in directory.paths(alloc)?.as_slice() {
        paths.push_str(path.as_str())?;
        paths.push(' ')?;
    }
    assert_eq!(rt; paths.as_str(), "a a-b a/c b b/a z ");
    let b = SharedPath::read(alloc, "b")?;
    let live = directory.live(alloc, &b)?;
    assert_eq!(rt; live.len(), 18);
    assert_eq!(rt; *live.at(0), id(2, 1));
    assert_eq!(rt; *live.at(16), id(98, 1));
    assert_eq!(rt; *live.at(17), id(200, 1));
    assert_eq!(rt; directory.winner(&b), Some(id(200, 1)));
    Ok(())
}
