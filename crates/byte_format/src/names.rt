ghost use Rattle.std.specs.Prelude as spec;
ghost use Rattle.std.specs.Prelude.{◌≡◌, ◌++◌, [], ◌∷◌, None};
ghost use Rattle.std.specs.Option.{option_map};
ghost use Rattle.byte_format.specs.Values.{actor_field, name_field, next_name, rising_names, names_field};
ghost use Rattle.byte_format.specs.Values as V;
ghost use Rattle.byte_format.specs.Read.{GivesExactly, Answers, IsKept, Judges};

use crate::faults::{Kind, Outside, ReadFault};
use crate::numbers::read_u64;
use std::alloc::Global;
use tt_base::{Actor, List, Name};

/// The actor in the first 16 bytes, and the bytes behind it.
#[tactic(auto, unfolding(crate::specs::Values::actor_field))]
pub fn read_actor(bytes: &[u8]) -> Result<(Actor, &[u8]), Outside>
    ensures { GivesExactly (λ x. (x.0, x.1.now)) result (actor_field.reads bytes.now) }
{
    match bytes.split_first_chunk::<16>() {
        Some((front, rest)) => Ok((Actor(*front), rest)),
        None => Err(Outside::at(Kind::Short, bytes)),
    }
}

/// The name in the first 32 bytes, and the bytes behind it.
#[tactic(auto, unfolding(crate::specs::Values::name_field))]
pub fn read_name(bytes: &[u8]) -> Result<(Name, &[u8]), Outside>
    ensures { GivesExactly (λ x. (x.0, x.1.now)) result (name_field.reads bytes.now) }
{
    match bytes.split_first_chunk::<32>() {
        Some((front, rest)) => Ok((Name(*front), rest)),
        None => Err(Outside::at(Kind::Short, bytes)),
    }
}

/// Whether a name may stand behind the one before it.
fn is_behind(before: Option<Name>, name: Name) -> bool
    ensures { result ≡ V.is_behind before name }
{
    match before {
        None => true,
        Some(before) => before.is_before(&name),
    }
}

/// The next of strictly rising names.
fn read_next(before: Option<Name>, bytes: &[u8]) -> Result<(Name, &[u8]), Outside>
    ensures { GivesExactly (λ x. (x.0, x.1.now)) result ((next_name before).reads bytes.now) }
{
    let (name, rest) = read_name(bytes)?;
    if !is_behind(before, name) {
        return Err(Outside::at(Kind::Order, bytes));
    }
    Ok((name, rest))
}

/// The names with one more behind them, or nothing once memory ran out.
fn with_name(names: Option<Vec<Name>>, name: Name) -> Option<Vec<Name>>
    ensures { (front : spec.List Name) → IsKept (option_map (λ v. v.items) names) front → IsKept (option_map (λ v. v.items) result) (front ++ name ∷ []) }
{
    let mut names = names?;
    match names.push(name) {
        Ok(()) => Some(names),
        Err(_) => None,
    }
}

/// So many names, strictly rising.
fn read_rising(
    alloc: Global,
    count: u64,
    bytes: &[u8],
) -> Result<(Option<Vec<Name>>, &[u8]), Outside>
    ensures { Judges (λ x. option_map (λ v. v.items) x.0) (λ x. x.1.now) result ((rising_names None count).reads bytes.now) }
{
    let mut names = Some(Vec::new(alloc));
    let mut before = None;
    let mut rest = bytes;
    for _ in 0..count {
        let (name, behind) = read_next(before, rest)?;
        names = with_name(names, name);
        before = Some(name);
        rest = behind;
    }
    Ok((names, rest))
}

/// Strictly rising names behind their number, and the bytes behind them.
///
/// Where memory runs out, reading goes on without keeping the names, so that a fault behind is told all the same.
#[tactic(auto, unfolding(crate::specs::Values::names_field))]
pub fn read_names_through(
    alloc: Global,
    bytes: &[u8],
) -> Result<(Option<List<Name>>, &[u8]), Outside>
    ensures { Judges (λ x. x.0) (λ x. x.1.now) result (names_field.reads bytes.now) }
{
    let (count, rest) = read_u64(bytes)?;
    let (names, rest) = read_rising(alloc, count, rest)?;
    match names {
        Some(names) => Ok((Some(List::from_vec(names)), rest)),
        None => Ok((None, rest)),
    }
}

/// Strictly rising names behind their number, and the bytes behind them.
pub fn read_names(alloc: Global, bytes: &[u8]) -> Result<(List<Name>, &[u8]), ReadFault>
    ensures { Answers (λ x. (x.0, x.1.now)) result (names_field.reads bytes.now) }
{
    let (names, rest) = read_names_through(alloc, bytes)?;
    match names {
        Some(names) => Ok((names, rest)),
        None => Err(ReadFault::Memory),
    }
}
