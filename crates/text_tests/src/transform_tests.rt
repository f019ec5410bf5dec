ghost use Rattle.std.specs.Prelude.{◌≡◌, IfOk};
ghost use Rattle.delta.specs.Cells.{base_length, result_length};
ghost use Rattle.transform.specs.Carried.{IsChain};

use delta::{Delta, DeltaBuilder, DeltaStep};
use std::alloc::{AllocError, Global};
use std::test::Fail;
use transform::{pass_daemon, pass_editor, pass_list};
use tt_base::Text;

/// A delta that keeps, then inserts, and then keeps.
fn insertion(alloc: Global, before: u8, text: &str, behind: u8) -> Result<Delta, AllocError> {
    let mut builder = DeltaBuilder::new(alloc)?;
    builder.keep(alloc, usize::from(before))?;
    builder.insert(alloc, &Text::from_str(alloc, text)?)?;
    builder.keep(alloc, usize::from(behind))?;
    let delta = builder.finish(alloc)?;
    Ok(delta)
}

/// So many copies of a delta that leaves a text as long as it was.
fn copies(alloc: Global, delta: &Delta, count: u8) -> Result<Vec<Delta>, AllocError>
    requires { base_length delta.now ≡ result_length delta.now }
    ensures { IfOk result (λ list. IsChain (base_length delta.now) list.items) }
{
    let mut list = Vec::new(alloc);
    for done in 0..count {
        list.push(delta.copied(alloc)?)?;
    }
    Ok(list)
}

#[test]
fn carries_past_each_other(rt: HostRuntime) -> Result<(), Fail> {
    let alloc = rt.alloc();
    let mut builder = DeltaBuilder::new(alloc)?;
    builder.delete(alloc, 1)?;
    builder.keep(alloc, 1)?;
    builder.insert(alloc, &Text::from_str(alloc, "X")?)?;
    let p = builder.finish(alloc)?;
    let mut builder = DeltaBuilder::new(alloc)?;
    builder.keep(alloc, 1)?;
    builder.delete(alloc, 1)?;
    let q = builder.finish(alloc)?;
    assert_eq!(rt; p.base_length(), q.base_length());
    let carried = pass_editor(alloc, &p, &q)?;
    let want = [
        DeltaStep::Insert(Text::from_str(alloc, "X")?),
        DeltaStep::Delete(1),
    ];
    assert_eq!(rt; carried.steps().as_slice(), want.as_slice());
    assert_eq!(rt; carried.base_length(), 1);
    let carried = pass_daemon(alloc, &q, &p)?;
    let want = [DeltaStep::Delete(1), DeltaStep::Keep(1)];
    assert_eq!(rt; carried.steps().as_slice(), want.as_slice());
    Ok(())
}

#[test]
fn carries_past_a_list(rt: HostRuntime) -> Result<(), Fail> {
    let alloc = rt.alloc();
    let p = insertion(alloc, 1, "P", 0)?;
    let first = insertion(alloc, 0, "Q", 1)?;
    let second = insertion(alloc, 2, "R", 0)?;
    assert_eq!(rt; first.base_length(), p.base_length());
    assert_eq!(rt; second.base_length(), first.result_length());
    let passed = pass_list(alloc, p, &[first, second])?;
    let want = insertion(alloc, 3, "P", 0)?;
    assert_eq!(rt; passed.delta.steps().as_slice(), want.steps().as_slice());
    assert_eq!(rt; passed.list.len(), 2);
    let want = insertion(alloc, 0, "Q", 2)?;
    assert_eq!(rt;
        passed.list.at(0).steps().as_slice(),
        want.steps().as_slice()
    );
    let want = insertion(alloc, 2, "R", 1)?;
    assert_eq!(rt;
        passed.list.at(1).steps().as_slice(),
        want.steps().as_slice()
    );
    Ok(())
}

/// Past lists of 3 and of 100, with a text of more than 4,096 characters.
#[test]
fn carries_past_long_lists(rt: HostRuntime) -> Result<(), Fail> {
    let alloc = rt.alloc();
    let long = "xyz".repeat(alloc, 2000)?;
    let p = insertion(alloc, 2, long.as_str(), 1)?;
    let mut builder = DeltaBuilder::new(alloc)?;
    builder.delete(alloc, 1)?;
    builder.insert(alloc, &Text::from_str(alloc, "Q")?)?;
    builder.keep(alloc, 2)?;
    let q = builder.finish(alloc)?;
    let want = [
        DeltaStep::Insert(Text::from_str(alloc, "Q")?),
        DeltaStep::Delete(1),
        DeltaStep::Keep(6002),
    ];
    assert_eq!(rt; q.base_length(), q.result_length());
    assert_eq!(rt; q.base_length(), p.base_length());
    let carried = pass_editor(alloc, &p, &q)?;
    assert_eq!(rt; carried.steps().as_slice(), p.steps().as_slice());
    let carried = pass_daemon(alloc, &q, &p)?;
    assert_eq!(rt; carried.steps().as_slice(), want.as_slice());
    for count in [3, 100] {
        let list = copies(alloc, &q, count)?;
        let passed = pass_list(alloc, p.copied(alloc)?, list.as_slice())?;
        assert_eq!(rt; passed.delta.steps().as_slice(), p.steps().as_slice());
        assert_eq!(rt; passed.list.len(), usize::from(count));
        for carried in passed.list.as_slice() {
            assert_eq!(rt; carried.steps().as_slice(), want.as_slice());
        }
    }
    Ok(())
}
