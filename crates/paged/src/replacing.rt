//! Pages, and the numbers beside them, that give way to others.
ghost use Rattle.std.specs.Prelude.{◌≡◌, ◌+◌, ◌≤◌, ◌<◌, ◌++◌, ◌∷◌, [], length, slice_index_or, IfOk, OnOk, OnErr};
ghost use Rattle.std.specs.List.{splice};
ghost use Rattle.paged.specs.Pages.{IsColumns};
ghost use Rattle.paged.specs.Replacing.{IsReplaced};

use crate::columns::{lengths_of, mark_of, marked_in, marks_of};
use crate::cutting::pages_of;
use crate::items::{PageItem, most};
use crate::lists::List;
use std::alloc::{AllocError, Global};

/// Puts items in place of those from one index up to another. After want of memory they are as before.
fn replace<T: Drop>(
    items: &mut Vec<T>,
    from: usize,
    to: usize,
    run: Vec<T>,
) -> Result<(), AllocError>
    requires order { from ≤ to }
    requires within { to ≤ length items.old.items }
    ensures ok { OnOk result (items.new.items ≡ splice items.old.items from to run.items) }
    ensures err { OnErr result (items.new.items ≡ items.old.items) }
{
    items.splice(from..to, run)?;
    Ok(())
}

/// The column with numbers in place of those from one index up to another.
fn column_with(
    alloc: Global,
    column: &[usize],
    from: usize,
    to: usize,
    run: Vec<usize>,
) -> Result<Vec<usize>, AllocError>
    requires order { from ≤ to }
    requires within { to ≤ length column.now }
    ensures { IfOk result (λ new. new.items ≡ splice column.now from to run.items) }
{
    let mut new = Vec::from_slice(alloc, column)?;
    replace(&mut new, from, to, run)?;
    Ok(new)
}

/// Puts a page in place of another.
fn replace_page<T: PageItem>(
    pages: &mut Vec<List<T>>,
    lengths: &mut Vec<usize>,
    marks: &mut Vec<usize>,
    index: usize,
    page: List<T>,
)
    requires columns { IsColumns T.marked pages.old.items lengths.old.items marks.old.items }
    requires within { index < length pages.old.items }
    ensures columns { IsColumns T.marked pages.new.items lengths.new.items marks.new.items }
    ensures pages { pages.new.items ≡ splice pages.old.items index (index + 1) (page ∷ []) }
{
    lengths[index] = page.len();
    marks[index] = marked_in(page.as_slice());
    pages[index] = page;
}

/// Adds an item at the end of a page. After want of memory all is as before.
pub(crate) fn push_in_page<T: PageItem>(
    alloc: Global,
    pages: &mut Vec<List<T>>,
    lengths: &mut Vec<usize>,
    marks: &mut Vec<usize>,
    index: usize,
    item: T,
) -> Result<(), AllocError>
    requires columns { IsColumns T.marked pages.old.items lengths.old.items marks.old.items }
    requires within { index < length pages.old.items }
    requires room { length (slice_index_or pages.old.items index []) < T.HALF + T.HALF }
    requires half { T.HALF ≤ length (slice_index_or pages.old.items index []) }
    ensures columns { IsColumns T.marked pages.new.items lengths.new.items marks.new.items }
    ensures ok { OnOk result (IsReplaced T.HALF pages.old.items index (index + 1) (slice_index_or pages.old.items index [] ++ item ∷ []) pages.new.items) }
    ensures err { OnErr result (pages.new.items ≡ pages.old.items) }
{
    pages[index].push(alloc, item)?;
    lengths[index] += 1;
    marks[index] += mark_of(item);
    Ok(())
}

/// Puts pages in place of those from one index up to another. After want of memory all is as before.
fn replace_pages<T: PageItem>(
    alloc: Global,
    pages: &mut Vec<List<T>>,
    lengths: &mut Vec<usize>,
    marks: &mut Vec<usize>,
    from: usize,
    to: usize,
    run: Vec<List<T>>,
) -> Result<(), AllocError>
    requires columns { IsColumns T.marked pages.old.items lengths.old.items marks.old.items }
    requires order { from ≤ to }
    requires within { to ≤ length pages.old.items }
    ensures columns { IsColumns T.marked pages.new.items lengths.new.items marks.new.items }
    ensures ok { OnOk result (pages.new.items ≡ splice pages.old.items from to run.items) }
    ensures err { OnErr result (pages.new.items ≡ pages.old.items) }
{
    let run_lengths = lengths_of(alloc, run.as_slice())?;
    let run_marks = marks_of(alloc, run.as_slice())?;
    let new_lengths = column_with(alloc, lengths.as_slice(), from, to, run_lengths)?;
    let new_marks = column_with(alloc, marks.as_slice(), from, to, run_marks)?;
    replace(pages, from, to, run)?;
    *lengths = new_lengths;
    *marks = new_marks;
    Ok(())
}

/// Puts the pages of items in place of those from one index up to another. One page in place of one
/// moves no other. After want of memory all is as before.
pub(crate) fn put_items<T: PageItem>(
    alloc: Global,
    pages: &mut Vec<List<T>>,
    lengths: &mut Vec<usize>,
    marks: &mut Vec<usize>,
    from: usize,
    to: usize,
    items: Vec<T>,
) -> Result<(), AllocError>
    requires columns { IsColumns T.marked pages.old.items lengths.old.items marks.old.items }
    requires order { from ≤ to }
    requires within { to ≤ length pages.old.items }
    requires long { T.HALF ≤ length items.items }
    ensures columns { IsColumns T.marked pages.new.items lengths.new.items marks.new.items }
    ensures ok { OnOk result (IsReplaced T.HALF pages.old.items from to items.items pages.new.items) }
    ensures err { OnErr result (pages.new.items ≡ pages.old.items) }
{
    if to - from == 1 && items.len() <= most::<T>() {
        replace_page(pages, lengths, marks, from, List::from_vec(items));
        return Ok(());
    }
    let run = pages_of(alloc, items.as_slice())?;
    replace_pages(alloc, pages, lengths, marks, from, to, run)
}
