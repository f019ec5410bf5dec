use file_uri::{Base, UriFault, path_of, uri_of};
use std::alloc::{AllocError, Global};
use std::test::Fail;
use tt_base::{PathFault, SharedPath};

const BASE: &str = "file:///work/";

fn written(alloc: Global, base: &Base, path: &str) -> Result<String, Fail> {
    let path = SharedPath::read(alloc, path)?;
    let uri = uri_of(alloc, base, &path)?;
    Ok(String::from_str(alloc, uri.as_str())?)
}

/// The URI of a directory whose name has `count` letters.
fn long_base(alloc: Global, count: usize) -> Result<String, AllocError> {
    let mut text = String::from_str(alloc, "file:///")?;
    for _ in 0..count {
        text.push('a')?;
    }
    text.push('/')?;
    Ok(text)
}

#[test]
fn reads_paths(rt: HostRuntime) -> Result<(), Fail> {
    let base = Base::read(rt.alloc(), BASE)?;
    for (uri, path) in [
        ("file:///work/a%20b", "a b"),
        ("file:///w%6Frk/a", "a"),
        ("file:///work/src/main.rs", "src/main.rs"),
        ("file:///work/a%2Fb", "a/b"),
        ("file:///work/%C3%A9", "é"),
        ("file:/work/a", "a"),
        ("FILE://localhost/work/a?q#f", "a"),
        ("file:///work/x/../a", "a"),
        ("file:///other/%2e%2E/work/a", "a"),
        ("file:///work/a b^", "a b^"),
        (" file:///work/a\n", "a"),
    ] {
        assert_eq!(rt; path_of(rt.alloc(), &base, uri)?.as_str(), path, "at {uri}");
    }
    Ok(())
}

#[test]
fn refuses_uris(rt: HostRuntime) -> Result<(), Fail> {
    let base = Base::read(rt.alloc(), BASE)?;
    for (uri, cause) in [
        ("a b", UriFault::NotAUri),
        ("http://x/a", UriFault::NotFile),
        ("http://[/a", UriFault::NotAUri),
        ("file://host/work/a", UriFault::HasHost),
        ("file:///other/a", UriFault::OutsideBase),
        ("file:///work", UriFault::OutsideBase),
        ("file:///work/../a", UriFault::OutsideBase),
        ("file:///work/%FF", UriFault::NotUtf8),
        ("file:///work/x/../%FF", UriFault::NotUtf8),
        ("file:///work/", UriFault::BadPath(PathFault::Empty)),
        ("file:///work//a", UriFault::BadPath(PathFault::Absolute)),
        ("file:///work/a%00", UriFault::BadPath(PathFault::NulByte)),
        ("file:///work/.git", UriFault::BadPath(PathFault::Reserved)),
        ("file:///work/a%2F..", UriFault::BadPath(PathFault::DotPart)),
        (
            "file:///work/a%2F.git",
            UriFault::BadPath(PathFault::Reserved),
        ),
    ] {
        let fault = path_of(rt.alloc(), &base, uri).err();
        assert_eq!(rt; fault, Some(cause), "at {uri}");
    }
    Ok(())
}

#[test]
fn reads_bases(rt: HostRuntime) -> Result<(), Fail> {
    for (uri, cause) in [
        ("a b", Some(UriFault::NotAUri)),
        ("http://x/", Some(UriFault::NotFile)),
        ("file://host/work/?q", Some(UriFault::HasHost)),
        ("file:///work", Some(UriFault::NotABase)),
        ("file:///work/?", Some(UriFault::NotABase)),
        ("file:///work/#f", Some(UriFault::NotABase)),
        ("file:///", None),
        ("file:", None),
        ("file:///C|/", None),
    ] {
        let fault = Base::read(rt.alloc(), uri).err();
        assert_eq!(rt; fault, cause, "at {uri}");
    }
    let longest = long_base(rt.alloc(), 65_527)?;
    assert_eq!(rt; Base::read(rt.alloc(), longest.as_str()).err(), None);
    let base = Base::read(rt.alloc(), longest.as_str())?;
    let uri = written(rt.alloc(), &base, "a b")?;
    assert_eq!(rt; uri.len(), 65_541);
    assert_eq!(rt; path_of(rt.alloc(), &base, uri.as_str())?.as_str(), "a b");
    let too_long = long_base(rt.alloc(), 65_528)?;
    assert_eq!(rt;
        Base::read(rt.alloc(), too_long.as_str()).err(),
        Some(UriFault::NotABase)
    );
    Ok(())
}

#[test]
fn writes_uris(rt: HostRuntime) -> Result<(), Fail> {
    let base = Base::read(rt.alloc(), BASE)?;
    for (path, uri) in [
        ("a b", "file:///work/a%20b"),
        ("src/A-z_0.9~", "file:///work/src/A-z_0.9~"),
        ("é%:|?#", "file:///work/%C3%A9%25%3A%7C%3F%23"),
    ] {
        assert_eq!(rt; written(rt.alloc(), &base, path)?.as_str(), uri);
        assert_eq!(rt; path_of(rt.alloc(), &base, uri)?.as_str(), path);
    }
    let spaced = Base::read(rt.alloc(), "file:/my work/")?;
    assert_eq!(rt;
        written(rt.alloc(), &spaced, "a")?.as_str(),
        "file:///my%20work/a"
    );
    Ok(())
}

#[test]
fn faults_have_texts(rt: HostRuntime) -> Result<(), Fail> {
    for (fault, text) in [
        (UriFault::NotAUri, "the text is no URI"),
        (UriFault::NotFile, "the scheme is not `file`"),
        (UriFault::HasHost, "the URI has a host"),
        (UriFault::NotABase, "the URI is no base"),
        (UriFault::OutsideBase, "the path is outside the base"),
        (UriFault::NotUtf8, "the path is not UTF-8"),
        (
            UriFault::BadPath(PathFault::Empty),
            "the path has an empty part",
        ),
        (UriFault::Memory, "out of memory"),
    ] {
        assert_eq!(rt; format!(in rt.alloc(); "{fault}")?.as_str(), text);
    }
    Ok(())
}
