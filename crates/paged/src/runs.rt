//! Reading a list from a place on, run by run.
ghost use Rattle.std.specs.Prelude.{◌≡◌, ◌≤◌, ◌<◌, ◌++◌, [], length, take, drop, slice_index_or, OnOk, OnErr};
ghost use Rattle.std.specs.List.{All};
ghost use Rattle.paged.specs.Pages.{flat};

use crate::lists::List;
use std::alloc::AllocError;
use std::marker::Model;

/// Reads a list from a place on. Contracts see the items that are left.
#[derive(Drop)]
pub struct Runs<'a, T> {
    pages: &'a [List<T>],
    used: usize,
}

impl<'a, T> Model for Runs<'a, T> {
    ghost use Rattle.std.specs.Prelude.{List, drop};
    ghost use Rattle.std.specs.Coded.{coded_list};
    ghost use Rattle.paged.specs.Pages.{flat};
    ghost use Rattle.paged.specs.Reading.{IsReading};

    ghost Value = { List T };

    ghost coded = { coded_list T.code };

    ghost view = { λ r. drop r.used (flat r.pages.now) };

    ghost invariant = { λ r. IsReading r.pages.now r.used };
}

impl<'a, T> Runs<'a, T> {
    /// Reads pages, none of which is empty, behind the first so many items of the first.
    pub(crate) fn new(pages: &'a [List<T>], used: usize) -> Runs<'a, T>
        requires some { All (λ page. 0 < length page) pages.now }
        requires within { used ≤ length (slice_index_or pages.now 0 []) }
        ensures { result ≡ drop used (flat pages.now) }
    {
        match pages.first() {
            Some(page) if used == page.len() => Runs {
                pages: &pages[1..],
                used: 0,
            },
            _ => Runs { pages, used },
        }
    }

    /// The next run of items, which is empty only where none is left.
    pub fn run(&self) -> &'a [T]
        ensures front { self.now ≡ result.now ++ drop (length result.now) self.now }
        ensures end { length result.now ≡ 0 → self.now ≡ [] }
    {
        match self.pages.first() {
            Some(page) => &page.as_slice()[self.used..],
            None => &[],
        }
    }

    /// Passes over items.
    pub fn skip(&mut self, count: usize)
        requires { count ≤ length self.old }
        ensures { self.new ≡ drop count self.old }
    {
        let mut pages = self.pages;
        let mut used = self.used;
        let mut left = count;
        while let Some(page) = pages.first() {
            let here = page.len() - used;
            if left < here {
                break;
            }
            left -= here;
            (_, pages) = pages.split_at(1);
            used = 0;
        }
        self.pages = pages;
        self.used = used + left;
    }
}

impl<'a, T: Copy> Runs<'a, T> {
    /// Copies the next items behind those of a vector, and passes over them. After want of memory the
    /// vector has its items as before, and no item is passed over.
    pub fn copy_to(&mut self, items: &mut Vec<T>, count: usize) -> Result<(), AllocError>
        requires { count ≤ length self.old }
        ensures copied { OnOk result (items.new.items ≡ items.old.items ++ take count self.old) }
        ensures rest { OnOk result (self.new ≡ drop count self.old) }
        ensures not_copied { OnErr result (items.new.items ≡ items.old.items) }
        ensures not_passed { OnErr result (self.new ≡ self.old) }
    {
        items.reserve(count)?;
        let mut left = count;
        while left > 0 {
            let run = self.run();
            let part = left.min(run.len());
            items.extend_from_slice(&run[..part])?;
            self.skip(part);
            left -= part;
        }
        Ok(())
    }
}
