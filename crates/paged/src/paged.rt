ghost use Rattle.std.specs.Prelude.{◌≡◌, ◌<◌, ◌≤◌, ◌+◌, ◌^◌, ◌==◌, ◌++◌, ◌∷◌, [], length, take, drop, slice_get, Some, IfOk, OnOk, OnErr};
ghost use Rattle.std.specs.List.{splice, insert, count_by};
ghost use Rattle.paged.specs.Pages.{flat, IsShaped};
ghost use Rattle.paged.specs.Marks.{behind};

use crate::columns::marked_in;
use crate::cutting::joined;
use crate::items::{PageItem, most};
use crate::lists::List;
use crate::marks::behind_in;
use crate::runs::Runs;
use crate::stores::Store;
use std::alloc::{AllocError, Global};
use std::marker::Model;
use std::slice;

/// A list of items, kept in pages where it is long, so that a change costs a page and not the whole.
///
/// Contracts see the list of its items.
#[derive(Debug, Drop)]
pub struct Paged<T: PageItem> {
    store: Store<T>,
}

impl<T: PageItem> Model for Paged<T> {
    ghost use Rattle.std.specs.Prelude.{List};
    ghost use Rattle.std.specs.Coded.{coded_list};
    ghost use Rattle.paged.specs.Stores.{items_of, IsStored};

    ghost Value = { List T };

    ghost coded = { coded_list T.code };

    ghost view = { λ p. items_of p.store };

    ghost invariant = { λ p. IsStored T.HALF p.store };
}

impl<T: PageItem> Paged<T> {
    /// The list with no items. It takes no memory.
    pub fn empty(alloc: Global) -> Paged<T>
        ensures { result ≡ [] }
    {
        Paged {
            store: Store::Run(List::from_vec(Vec::new(alloc))),
        }
    }

    /// The items of the vector. If they are not more than a page has, they stay in its memory.
    pub fn from_vec(alloc: Global, items: Vec<T>) -> Result<Paged<T>, AllocError>
        ensures { IfOk result (λ list. list ≡ items.items) }
    {
        Ok(Paged {
            store: Store::from_vec(alloc, items)?,
        })
    }

    /// The items of the slice, which are copied.
    pub fn from_slice(alloc: Global, items: &[T]) -> Result<Paged<T>, AllocError>
        ensures { IfOk result (λ list. list ≡ items.now) }
    {
        Paged::from_vec(alloc, Vec::from_slice(alloc, items)?)
    }

    /// The number of items.
    pub fn len(&self) -> usize
        ensures length { result ≡ length self.now }
        ensures fits { length self.now < 2 ^ 64 }
    {
        match &self.store {
            Store::Run(items) => items.len(),
            Store::Pages(pages) => pages.len(),
        }
    }

    /// Whether there are no items.
    pub fn is_empty(&self) -> bool
        ensures { result ≡ (length self.now == 0) }
    {
        self.len() == 0
    }

    /// The item at `place`, counted from 0.
    pub fn at(&self, place: usize) -> T
        requires { place < length self.now }
        ensures { slice_get self.now place ≡ Some result }
    {
        match &self.store {
            Store::Run(items) => *items.at(place),
            Store::Pages(pages) => pages.at(place),
        }
    }

    /// The items, page by page.
    pub fn pages(&self) -> &[List<T>]
        ensures whole { flat result.now ≡ self.now }
        ensures shaped { IsShaped T.HALF result.now }
    {
        match &self.store {
            Store::Run(items) if items.is_empty() => &[],
            Store::Run(items) => slice::from_ref(items),
            Store::Pages(pages) => pages.as_slice(),
        }
    }

    /// Reads the items from a place on, run by run.
    pub fn runs(&self, place: usize) -> Runs<'_, T>
        requires { place ≤ length self.now }
        ensures { result ≡ drop place self.now }
    {
        match &self.store {
            Store::Run(items) if items.is_empty() => Runs::new(&[], 0),
            Store::Run(items) => Runs::new(slice::from_ref(items), place),
            Store::Pages(pages) => pages.runs(place),
        }
    }

    /// Puts a run of items in the place of those from `start` up to `end`. After want of memory the
    /// list is as before.
    pub fn splice(
        &mut self,
        alloc: Global,
        start: usize,
        end: usize,
        run: &[T],
    ) -> Result<(), AllocError>
        requires order { start ≤ end }
        requires within { end ≤ length self.old }
        ensures ok { OnOk result (self.new ≡ splice self.old start end run.now) }
        ensures err { OnErr result (self.new ≡ self.old) }
    {
        match &mut self.store {
            Store::Run(items) => {
                let (front, _) = items.as_slice().split_at(start);
                let (_, back) = items.as_slice().split_at(end);
                let all = joined(alloc, front, run, back)?;
                self.store = Store::from_vec(alloc, all)?;
            }
            Store::Pages(pages) => {
                let patch = pages.patch(alloc, start, end, run)?;
                if patch.from == 0 && patch.to == pages.as_slice().len() {
                    self.store = Store::from_vec(alloc, patch.items)?;
                } else {
                    pages.put(alloc, patch)?;
                }
            }
        }
        Ok(())
    }

    /// Inserts an item. After want of memory the list is as before.
    pub fn insert(&mut self, alloc: Global, place: usize, item: T) -> Result<(), AllocError>
        requires { place ≤ length self.old }
        ensures ok { OnOk result (self.new ≡ insert self.old place item) }
        ensures err { OnErr result (self.new ≡ self.old) }
    {
        let mut run = Vec::with_capacity(alloc, 1)?;
        run.push(item)?;
        self.splice(alloc, place, place, run.as_slice())
    }

    /// Adds an item at the end. After want of memory the list is as before.
    pub fn push(&mut self, alloc: Global, item: T) -> Result<(), AllocError>
        ensures ok { OnOk result (self.new ≡ self.old ++ item ∷ []) }
        ensures err { OnErr result (self.new ≡ self.old) }
    {
        let count = self.len();
        if count == most::<T>() {
            return self.insert(alloc, count, item);
        }
        match &mut self.store {
            Store::Run(items) => items.push(alloc, item),
            Store::Pages(pages) => pages.push(alloc, item),
        }
    }

    /// The number of items up to the nth that is marked, this one included, where there are so many.
    /// It is 0 for n = 0.
    pub fn behind(&self, n: usize) -> Option<usize>
        ensures { result ≡ behind T.marked self.now n }
    {
        match &self.store {
            Store::Run(items) => behind_in(items.as_slice(), n),
            Store::Pages(pages) => pages.behind(n),
        }
    }

    /// How many items before a place are marked.
    pub fn marked_before(&self, place: usize) -> usize
        requires { place ≤ length self.now }
        ensures { result ≡ count_by T.marked (take place self.now) }
    {
        match &self.store {
            Store::Run(items) => marked_in(&items.as_slice()[..place]),
            Store::Pages(pages) => pages.marked_before(place),
        }
    }

    /// The items, in one vector.
    pub fn to_vec(&self, alloc: Global) -> Result<Vec<T>, AllocError>
        ensures { IfOk result (λ items. items.items ≡ self.now) }
    {
        let mut items = Vec::with_capacity(alloc, self.len())?;
        for page in self.pages() {
            items.extend_from_slice(page.as_slice())?;
        }
        Ok(items)
    }

    /// The same items in memory of their own.
    pub fn copied(&self, alloc: Global) -> Result<Paged<T>, AllocError>
        ensures { IfOk result (λ copy. copy ≡ self.now) }
    {
        let store = match &self.store {
            Store::Run(items) => Store::Run(List::from_vec(Vec::from_slice(
                alloc,
                items.as_slice(),
            )?)),
            Store::Pages(pages) => Store::Pages(pages.copied(alloc)?),
        };
        Ok(Paged { store })
    }
}
