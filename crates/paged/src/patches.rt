//! A change of a list in pages, as a patch: a run of its pages gives way to items.
ghost use Rattle.std.specs.Prelude.{◌≡◌, ◌+◌, ◌-◌, ◌<◌, ◌≤◌, length, map, IfOk};
ghost use Rattle.std.specs.List.{splice, All};
ghost use Rattle.paged.specs.Pages.{flat, patched, HasLength};

use crate::columns::find;
use crate::cutting::joined;
use crate::items::PageItem;
use crate::lists::List;
use std::alloc::{AllocError, Global};

/// The pages from one index up to another give way to items.
#[derive(Drop)]
pub(crate) struct Patch<T> {
    /// The first page that gives way.
    pub from: usize,
    /// The first page behind those.
    pub to: usize,
    /// What stands in their place.
    pub items: Vec<T>,
}

/// The pages in which a range of the whole begins and ends, with the run in place of the range.
fn patch_around<T: Copy>(
    alloc: Global,
    pages: &[List<T>],
    lengths: &[usize],
    start: usize,
    end: usize,
    run: &[T],
) -> Result<Patch<T>, AllocError>
    requires lengths { lengths.now ≡ map length pages.now }
    requires some { 0 < length pages.now }
    requires order { start ≤ end }
    requires within { end ≤ length (flat pages.now) }
    ensures order { IfOk result (λ p. p.from < p.to) }
    ensures within { IfOk result (λ p. p.to ≤ length pages.now) }
    ensures gives { IfOk result (λ p. patched p.from p.to p.items.items pages.now ≡ splice (flat pages.now) start end run.now) }
{
    let first = find(pages, lengths, start);
    let (_, pages_left) = pages.split_at(first.index);
    let (_, lengths_left) = lengths.split_at(first.index);
    let last = find(pages_left, lengths_left, first.offset + (end - start));
    let (front, _) = pages[first.index].as_slice().split_at(first.offset);
    let (_, back) = pages_left[last.index].as_slice().split_at(last.offset);
    Ok(Patch {
        from: first.index,
        to: first.index + last.index + 1,
        items: joined(alloc, front, run, back)?,
    })
}

/// The patch with a page beside it too, if its items are too few for a page and there is another page.
fn with_neighbor<T: PageItem>(
    alloc: Global,
    pages: &[List<T>],
    patch: Patch<T>,
) -> Result<Patch<T>, AllocError>
    requires each { All (HasLength T.HALF (T.HALF + T.HALF)) pages.now }
    requires order { patch.from < patch.to }
    requires within { patch.to ≤ length pages.now }
    ensures order { IfOk result (λ p. p.from < p.to) }
    ensures within { IfOk result (λ p. p.to ≤ length pages.now) }
    ensures gives { IfOk result (λ p. patched p.from p.to p.items.items pages.now ≡ patched patch.from patch.to patch.items.items pages.now) }
    ensures long { IfOk result (λ p. 0 < p.from + (length pages.now - p.to) → T.HALF ≤ length p.items.items) }
{
    let Patch {
        from,
        to,
        mut items,
    } = patch;
    if items.len() < T::HALF && to < pages.len() {
        items.extend_from_slice(pages[to].as_slice())?;
        return Ok(Patch {
            from,
            to: to + 1,
            items,
        });
    }
    if items.len() < T::HALF && 0 < from {
        let items = joined(alloc, pages[from - 1].as_slice(), items.as_slice(), &[])?;
        return Ok(Patch {
            from: from - 1,
            to,
            items,
        });
    }
    Ok(Patch { from, to, items })
}

/// The patch by which a run of items stands in place of a range of the whole. Where it leaves another
/// page, its own items are a page at least.
pub(crate) fn patch_of<T: PageItem>(
    alloc: Global,
    pages: &[List<T>],
    lengths: &[usize],
    start: usize,
    end: usize,
    run: &[T],
) -> Result<Patch<T>, AllocError>
    requires lengths { lengths.now ≡ map length pages.now }
    requires some { 0 < length pages.now }
    requires each { All (HasLength T.HALF (T.HALF + T.HALF)) pages.now }
    requires order { start ≤ end }
    requires within { end ≤ length (flat pages.now) }
    ensures order { IfOk result (λ p. p.from < p.to) }
    ensures within { IfOk result (λ p. p.to ≤ length pages.now) }
    ensures gives { IfOk result (λ p. patched p.from p.to p.items.items pages.now ≡ splice (flat pages.now) start end run.now) }
    ensures long { IfOk result (λ p. 0 < p.from + (length pages.now - p.to) → T.HALF ≤ length p.items.items) }
{
    let patch = patch_around(alloc, pages, lengths, start, end, run)?;
    let patch = with_neighbor(alloc, pages, patch)?;
    Ok(patch)
}
