//! Replicas of two daemons that make changes and tell each other.
ghost use Rattle.std.specs.Prelude.{◌≡◌, IfOk, IsTrue, length};
ghost use Rattle.replica_views.specs.Views.{text_at};

use change_codec::Change;
use delta::{Delta, DeltaStep, replace_all};
use replica_history::{Added, Effect, Replica, indices_fit};
use std::alloc::{AllocError, Global};
use std::process::Abort;
use std::test::Fail;
use tt_base::{Actor, SharedPath, Text};

/// The steps of a delta in words: what is kept, inserted and deleted.
fn spell_delta(alloc: Global, words: &mut String, delta: &Delta) -> Result<(), Fail> {
    for step in delta.steps().as_slice() {
        let word = match step {
            DeltaStep::Keep(count) => format!(in alloc; "={count} ")?,
            DeltaStep::Insert(text) => format!(in alloc; "+{} ", text.to_string(alloc)?.as_str())?,
            DeltaStep::Delete(count) => format!(in alloc; "-{count} ")?,
        };
        words.push_str(word.as_str())?;
    }
    Ok(())
}

/// Effects in words: each path with the steps of what is changed there.
fn spelled(alloc: Global, effects: &[Effect]) -> Result<String, Fail> {
    let mut words = String::new(alloc);
    for effect in effects {
        words.push_str(effect.path.as_str())?;
        words.push_str(": ")?;
        spell_delta(alloc, &mut words, &effect.delta)?;
    }
    Ok(words)
}

/// What comes of a change, in words.
fn add(
    rt: &(impl Abort + AllocGlobal),
    replica: &mut Replica,
    change: Change,
) -> Result<String, Fail> {
    assert!(rt; indices_fit(&change));
    assert!(rt; replica.is_live());
    match replica.add(rt.alloc(), change) {
        Ok(Added::Repeat) => Ok(format!(in rt.alloc(); "again ")?),
        Ok(Added::Effects(effects)) => spelled(rt.alloc(), effects.as_slice()),
        Err(fault) => Ok(format!(in rt.alloc(); "{fault}")?),
    }
}

/// How many characters are read at a path.
#[tactic(auto, using(replica_views::proofs::ViewLemmas::text_seen, replica_views::proofs::ViewLemmas::text_unseen))]
fn length_at(alloc: Global, replica: &Replica, path: &SharedPath) -> Result<usize, AllocError>
    requires { IsTrue replica.now.live }
    ensures { IfOk result (λ count. count ≡ length (text_at replica.now.history path.now)) }
{
    match replica.view(alloc, path)? {
        Some(text) => Ok(text.len()),
        None => Ok(0),
    }
}

/// A daemon replaces all of the text at a path, and what comes of it in words.
fn replace(
    rt: &(impl Abort + AllocGlobal),
    replica: &mut Replica,
    actor: Actor,
    path: &str,
    text: &str,
) -> Result<String, Fail> {
    let path = SharedPath::read(rt.alloc(), path)?;
    let text = Text::from_str(rt.alloc(), text)?;
    assert!(rt; replica.is_live());
    let length = length_at(rt.alloc(), replica, &path)?;
    let delta = replace_all(rt.alloc(), length, &text)?;
    assert_eq!(rt; delta.base_length(), length);
    let change = replica.change_for(rt.alloc(), actor, &path, &delta)?;
    add(rt, replica, change)
}

/// Tells one replica the changes of another, from one place on, and what comes of each in words.
fn teach(
    rt: &(impl Abort + AllocGlobal),
    from: &Replica,
    place: usize,
    to: &mut Replica,
) -> Result<String, Fail> {
    let heads = from.graph().heads(rt.alloc())?;
    let names = from.graph().between(rt.alloc(), heads.as_slice(), &[])?;
    let mut words = String::new(rt.alloc());
    for name in names.as_slice().iter().skip(place) {
        let change = from.graph().change(name).ok_or("no change")?;
        let change = change.copied(rt.alloc())?;
        words.push_str(add(rt, to, change)?.as_str())?;
        words.push_str("| ")?;
    }
    Ok(words)
}

/// The paths at which a file was ever made, and the text at each, in words.
fn shown(rt: &(impl Abort + AllocGlobal), replica: &Replica) -> Result<String, Fail> {
    assert!(rt; replica.is_live());
    let mut words = String::new(rt.alloc());
    for path in replica.paths(rt.alloc())?.as_slice() {
        words.push_str(path.as_str())?;
        match replica.view(rt.alloc(), path)? {
            Some(text) => {
                assert_eq!(rt; replica.text_length(path), Some(text.len()));
                words.push_str("=")?;
                words.push_str(text.to_string(rt.alloc())?.as_str())?;
            }
            None => assert_eq!(rt; replica.text_length(path), None),
        }
        words.push_str(" ")?;
    }
    Ok(words)
}

/// A daemon removes the file at a path, and what comes of it in words.
fn remove(
    rt: &(impl Abort + AllocGlobal),
    replica: &mut Replica,
    actor: Actor,
    path: &str,
) -> Result<String, Fail> {
    let path = SharedPath::read(rt.alloc(), path)?;
    assert!(rt; replica.is_live());
    let change = replica.removal_of(rt.alloc(), actor, &path)?;
    add(rt, replica, change)
}

const ONE: Actor = Actor([1; 16]);

const OTHER: Actor = Actor([2; 16]);

/// The replicas of two daemons.
#[derive(Drop)]
struct Pair {
    one: Replica,
    other: Replica,
}

/// A step of a script: its sign, a path and a text.
type Step<'a> = (char, &'a str, &'a str);

/// What comes of a step in words. By `1` and `2` a daemon replaces the text at a path, by `>` and `<` one tells the other all its
/// changes or, where a path is named, the last of three, by `-` the second one removes a file, and by `?` what is shown is told.
fn play(
    rt: &(impl Abort + AllocGlobal),
    pair: &mut Pair,
    (sign, path, text): Step<'_>,
) -> Result<String, Fail> {
    let place = if path.is_empty() { 0 } else { 3 };
    match sign {
        '1' => replace(rt, &mut pair.one, ONE, path, text),
        '2' => replace(rt, &mut pair.other, OTHER, path, text),
        '>' => teach(rt, &pair.one, place, &mut pair.other),
        '<' => teach(rt, &pair.other, place, &mut pair.one),
        '-' => remove(rt, &mut pair.other, OTHER, path),
        '?' => shown(rt, &pair.one),
        _ => shown(rt, &pair.other),
    }
}

/// Each step of a script comes to these words, or ends with them.
fn plays(rt: &(impl Abort + AllocGlobal), script: &[(Step<'_>, &str)]) -> Result<(), Fail> {
    let mut pair = Pair {
        one: Replica::new(rt.alloc())?,
        other: Replica::new(rt.alloc())?,
    };
    for (step, words) in script {
        let told = play(rt, &mut pair, *step)?;
        assert!(rt; told.as_str().ends_with(*words), "{words}");
    }
    assert_eq!(rt; pair.one.held(), pair.one.graph().count());
    Ok(())
}

#[test]
fn changes_of_two_daemons_meet(rt: HostRuntime) -> Result<(), Fail> {
    plays(
        &rt,
        &[
            (('1', "f", "ab"), "f: +ab "),
            (('>', "", ""), "f: +ab | "),
            (('1', "f", "c"), "f: +c -2 "),
            (('2', "f", "d"), "f: +d -2 "),
            (('2', "a/g", "q"), "a/g: +q "),
            (('>', "", ""), "again | f: =1 +c | "),
            (('<', "f", ""), "dependencies are missing| "),
            (('?', "", ""), "f=c "),
            (('<', "", ""), "a/g: +q | "),
            (('?', "", ""), "a/g=q f=dc "),
            (('!', "", ""), "a/g=q f=dc "),
        ],
    )
}

#[test]
fn a_file_is_made_twice_and_removed(rt: HostRuntime) -> Result<(), Fail> {
    let long = "0123456789".repeat(rt.alloc(), 300)?;
    plays(
        &rt,
        &[
            (('1', "f", long.as_str()), "9 "),
            (('1', "f", "é"), "f: +é -3000 "),
            (('2', "f", "xyz"), "f: +xyz "),
            (('>', "", ""), "| | "),
            (('!', "", ""), "f=xyz "),
            (('-', "f", ""), "f: -3 "),
            (('!', "", ""), "f "),
            (('<', "", ""), "f: -3 | "),
            (('?', "", ""), "f "),
        ],
    )
}
