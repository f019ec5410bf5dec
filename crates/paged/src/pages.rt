ghost use Rattle.std.specs.Prelude.{◌≡◌, ◌+◌, ◌-◌, ◌^◌, ◌<◌, ◌≤◌, ◌++◌, ◌∷◌, [], length, take, drop, slice_get, Some, IfOk, OnOk, OnErr};
ghost use Rattle.std.specs.List.{splice, count_by};
ghost use Rattle.paged.specs.Pages.{flat, patched, IsPaging};
ghost use Rattle.paged.specs.Marks.{behind};

use crate::columns::{find, lengths_of, marks_of, sum_of};
use crate::cutting::pages_of;
use crate::items::{PageItem, most};
use crate::lists::List;
use crate::marks::{behind_in_pages, marked_before};
use crate::patches::{Patch, patch_of};
use crate::replacing::{push_in_page, put_items};
use crate::runs::Runs;
use std::alloc::{AllocError, Global};
use std::marker::Model;

/// Two pages or more, which contracts see as the list of the pages. Beside each stand its length and
/// the number of its marked items.
#[derive(Debug, Drop)]
pub(crate) struct Pages<T: PageItem> {
    pages: Vec<List<T>>,
    lengths: Vec<usize>,
    marks: Vec<usize>,
    count: usize,
}

impl<T: PageItem> Model for Pages<T> {
    ghost use Rattle.std.specs.Prelude.{List};
    ghost use Rattle.std.specs.Coded.{coded_list};
    ghost use Rattle.paged.specs.Pages.{IsPaged};

    ghost Value = { List (List T) };

    ghost coded = { coded_list (coded_list T.code) };

    ghost view = { λ p. p.pages.items };

    ghost invariant = { λ p. IsPaged T.HALF T.marked p.pages.items p.lengths.items p.marks.items p.count };
}

impl<T: PageItem> Pages<T> {
    /// The pages of items that are too many for one.
    pub(crate) fn new(alloc: Global, items: &[T]) -> Result<Pages<T>, AllocError>
        requires { T.HALF + T.HALF < length items.now }
        ensures { IfOk result (λ pages. flat pages ≡ items.now) }
    {
        let count = items.len();
        let pages = pages_of(alloc, items)?;
        let lengths = lengths_of(alloc, pages.as_slice())?;
        let marks = marks_of(alloc, pages.as_slice())?;
        Ok(Pages {
            pages,
            lengths,
            marks,
            count,
        })
    }

    /// The number of items.
    pub(crate) fn len(&self) -> usize
        ensures length { result ≡ length (flat self.now) }
        ensures fits { length (flat self.now) < 2 ^ 64 }
    {
        self.count
    }

    /// The pages, one after the other.
    pub(crate) fn as_slice(&self) -> &[List<T>]
        ensures pages { result.now ≡ self.now }
        ensures paging { IsPaging T.HALF self.now }
    {
        self.pages.as_slice()
    }

    /// The item at a place.
    pub(crate) fn at(&self, place: usize) -> T
        requires { place < length (flat self.now) }
        ensures { slice_get (flat self.now) place ≡ Some result }
    {
        let spot = find(self.pages.as_slice(), self.lengths.as_slice(), place + 1);
        *self.pages[spot.index].at(spot.offset - 1)
    }

    /// Reads the items from a place on, run by run.
    pub(crate) fn runs(&self, place: usize) -> Runs<'_, T>
        requires { place ≤ length (flat self.now) }
        ensures { result ≡ drop place (flat self.now) }
    {
        let pages = self.pages.as_slice();
        let spot = find(pages, self.lengths.as_slice(), place);
        let (_, rest) = pages.split_at(spot.index);
        Runs::new(rest, spot.offset)
    }

    /// The patch by which a run of items stands in place of those from `start` up to `end`.
    pub(crate) fn patch(
        &self,
        alloc: Global,
        start: usize,
        end: usize,
        run: &[T],
    ) -> Result<Patch<T>, AllocError>
        requires order { start ≤ end }
        requires within { end ≤ length (flat self.now) }
        ensures order { IfOk result (λ p. p.from < p.to) }
        ensures within { IfOk result (λ p. p.to ≤ length self.now) }
        ensures gives { IfOk result (λ p. patched p.from p.to p.items.items self.now ≡ splice (flat self.now) start end run.now) }
        ensures long { IfOk result (λ p. 0 < p.from + (length self.now - p.to) → T.HALF ≤ length p.items.items) }
    {
        let patch = patch_of(
            alloc,
            self.pages.as_slice(),
            self.lengths.as_slice(),
            start,
            end,
            run,
        )?;
        Ok(patch)
    }

    /// Puts the items of a patch in the place of its pages. After want of memory all is as before.
    pub(crate) fn put(&mut self, alloc: Global, patch: Patch<T>) -> Result<(), AllocError>
        requires order { patch.from < patch.to }
        requires within { patch.to ≤ length self.old }
        requires others { 0 < patch.from + (length self.old - patch.to) }
        requires long { T.HALF ≤ length patch.items.items }
        ensures ok { OnOk result (flat self.new ≡ patched patch.from patch.to patch.items.items self.old) }
        ensures err { OnErr result (self.new ≡ self.old) }
    {
        let Patch { from, to, items } = patch;
        let gone = sum_of(&self.lengths[from..to]);
        let count = (self.count - gone)
            .checked_add(items.len())
            .ok_or(AllocError)?;
        put_items(
            alloc,
            &mut self.pages,
            &mut self.lengths,
            &mut self.marks,
            from,
            to,
            items,
        )?;
        self.count = count;
        Ok(())
    }

    /// Adds an item at the end, in the last page if that has room. After want of memory all is as
    /// before.
    pub(crate) fn push(&mut self, alloc: Global, item: T) -> Result<(), AllocError>
        ensures ok { OnOk result (flat self.new ≡ flat self.old ++ item ∷ []) }
        ensures err { OnErr result (self.new ≡ self.old) }
    {
        let count = self.count.checked_add(1).ok_or(AllocError)?;
        let last = self.pages.len() - 1;
        if self.pages[last].len() < most::<T>() {
            push_in_page(
                alloc,
                &mut self.pages,
                &mut self.lengths,
                &mut self.marks,
                last,
                item,
            )?;
            self.count = count;
            return Ok(());
        }
        let mut items = Vec::from_slice(alloc, self.pages[last].as_slice())?;
        items.push(item)?;
        let patch = Patch {
            from: last,
            to: last + 1,
            items,
        };
        self.put(alloc, patch)
    }

    /// The number of items up to the nth that is marked, where there are so many.
    pub(crate) fn behind(&self, n: usize) -> Option<usize>
        ensures { result ≡ behind T.marked (flat self.now) n }
    {
        behind_in_pages(
            self.pages.as_slice(),
            self.lengths.as_slice(),
            self.marks.as_slice(),
            n,
        )
    }

    /// How many items before a place are marked.
    pub(crate) fn marked_before(&self, place: usize) -> usize
        requires { place ≤ length (flat self.now) }
        ensures { result ≡ count_by T.marked (take place (flat self.now)) }
    {
        marked_before(
            self.pages.as_slice(),
            self.lengths.as_slice(),
            self.marks.as_slice(),
            place,
        )
    }

    /// The same pages in memory of their own.
    pub(crate) fn copied(&self, alloc: Global) -> Result<Pages<T>, AllocError>
        ensures { IfOk result (λ copy. copy ≡ self.now) }
    {
        let mut pages = Vec::with_capacity(alloc, self.pages.len())?;
        for page in self.pages.as_slice() {
            pages.push(List::from_vec(Vec::from_slice(alloc, page.as_slice())?))?;
        }
        Ok(Pages {
            pages,
            lengths: Vec::from_slice(alloc, self.lengths.as_slice())?,
            marks: Vec::from_slice(alloc, self.marks.as_slice())?,
            count: self.count,
        })
    }
}
