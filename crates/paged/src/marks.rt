ghost use Rattle.std.specs.Prelude.{◌≡◌, ◌+◌, ◌^◌, ◌<◌, ◌≤◌, length, take, IfSome};
ghost use Rattle.std.specs.List.{count_by};
ghost use Rattle.paged.specs.Pages.{flat, IsColumns};
ghost use Rattle.paged.specs.Marks.{behind};

use crate::columns::{find, marked_in, reach, sum_of};
use crate::items::PageItem;
use crate::lists::List;

/// The number of items up to the nth marked one, in one run.
pub(crate) fn behind_in<T: PageItem>(items: &[T], n: usize) -> Option<usize>
    ensures place { result ≡ behind T.marked items.now n }
    ensures within { IfSome result (λ place. place ≤ length items.now) }
{
    let mut left = n;
    for (i, item) in items.iter().enumerate() {
        if left == 0 {
            return Some(i);
        }
        if item.is_marked() {
            left -= 1;
        }
    }
    if left == 0 { Some(items.len()) } else { None }
}

/// The number of items up to the nth marked one, in pages.
pub(crate) fn behind_in_pages<T: PageItem>(
    pages: &[List<T>],
    lengths: &[usize],
    marks: &[usize],
    n: usize,
) -> Option<usize>
    requires columns { IsColumns T.marked pages.now lengths.now marks.now }
    requires fits { length (flat pages.now) < 2 ^ 64 }
    ensures { result ≡ behind T.marked (flat pages.now) n }
{
    if n == 0 {
        return Some(0);
    }
    let spot = reach(marks, n);
    if spot.index == marks.len() {
        return None;
    }
    let (before, _) = lengths.split_at(spot.index);
    let start = sum_of(before);
    let place = behind_in(pages[spot.index].as_slice(), spot.offset)?;
    Some(start + place)
}

/// How many items before a place are marked, in pages.
pub(crate) fn marked_before<T: PageItem>(
    pages: &[List<T>],
    lengths: &[usize],
    marks: &[usize],
    place: usize,
) -> usize
    requires columns { IsColumns T.marked pages.now lengths.now marks.now }
    requires some { 0 < length pages.now }
    requires within { place ≤ length (flat pages.now) }
    requires fits { length (flat pages.now) < 2 ^ 64 }
    ensures { result ≡ count_by T.marked (take place (flat pages.now)) }
{
    let spot = find(pages, lengths, place);
    let (before, _) = marks.split_at(spot.index);
    let (front, _) = pages[spot.index].as_slice().split_at(spot.offset);
    sum_of(before) + marked_in(front)
}
