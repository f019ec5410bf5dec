//! The numbers beside the pages of a list.
ghost use Rattle.std.specs.Prelude.{◌≡◌, ◌+◌, ◌^◌, ◌<◌, ◌≤◌, length, map, take, slice_index, IfOk, if◌then◌else◌};
ghost use Rattle.std.specs.List.{sum, count_by};
ghost use Rattle.paged.specs.Pages.{flat};
ghost use Rattle.paged.specs.Spots.{IsSpot};

use crate::items::PageItem;
use crate::lists::List;
use std::alloc::{AllocError, Global};

/// Where a sum is reached in a column.
#[derive(Clone, Copy, Debug, PartialEq, Eq)]
pub(crate) struct Spot {
    /// The index of the first number with which the sum is reached, or the length of the column.
    pub index: usize,
    /// What the numbers before it lack of the sum.
    pub offset: usize,
}

/// The first number of a column with which a sum is reached. So the border of two pages is the end of
/// the earlier one.
pub(crate) fn reach(column: &[usize], n: usize) -> Spot
    ensures index { result.index ≤ length column.now }
    ensures reached { sum (take result.index column.now) + result.offset ≡ n }
    ensures inside { result.index < length column.now → result.offset ≤ slice_index column.now result.index }
    ensures behind { 0 < result.index → 0 < result.offset }
{
    let mut offset = n;
    for (index, number) in column.iter().enumerate() {
        if offset <= *number {
            return Spot { index, offset };
        }
        offset -= *number;
    }
    Spot {
        index: column.len(),
        offset,
    }
}

/// The page of a place, the earlier one at the border of two.
pub(crate) fn find<T>(pages: &[List<T>], lengths: &[usize], place: usize) -> Spot
    requires lengths { lengths.now ≡ map length pages.now }
    requires some { 0 < length pages.now }
    requires within { place ≤ length (flat pages.now) }
    ensures spot { IsSpot pages.now place result.index result.offset }
    ensures behind { 0 < place → 0 < result.offset }
{
    let _count = pages.len();
    reach(lengths, place)
}

/// The sum of a column.
pub(crate) fn sum_of(column: &[usize]) -> usize
    requires { sum column.now < 2 ^ 64 }
    ensures { result ≡ sum column.now }
{
    column.iter().sum()
}

/// 1 for a marked item, and 0 for any other.
pub(crate) fn mark_of<T: PageItem>(item: T) -> usize
    ensures mark { result ≡ (if T.marked item then 1 else 0) }
    ensures one { result ≤ 1 }
{
    if item.is_marked() { 1 } else { 0 }
}

/// How many items are marked.
pub(crate) fn marked_in<T: PageItem>(items: &[T]) -> usize
    ensures { result ≡ count_by T.marked items.now }
{
    items.iter().filter(|item| item.is_marked()).count()
}

/// The length of each page.
pub(crate) fn lengths_of<T>(alloc: Global, pages: &[List<T>]) -> Result<Vec<usize>, AllocError>
    ensures { IfOk result (λ lengths. lengths.items ≡ map length pages.now) }
{
    pages.iter().map(|page| page.len()).collect(alloc)
}

/// How many items of each page are marked.
pub(crate) fn marks_of<T: PageItem>(
    alloc: Global,
    pages: &[List<T>],
) -> Result<Vec<usize>, AllocError>
    ensures { IfOk result (λ marks. marks.items ≡ map (count_by T.marked) pages.now) }
{
    pages
        .iter()
        .map(|page| marked_in(page.as_slice()))
        .collect(alloc)
}
