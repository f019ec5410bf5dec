ghost use Rattle.std.specs.Prelude.{◌≡◌, IfOk};
ghost use Rattle.paged.specs.Stores.{items_of, IsStored};

use crate::items::{PageItem, most};
use crate::lists::List;
use crate::pages::Pages;
use std::alloc::{AllocError, Global};

/// A list of items in the form that suits its length.
#[derive(Debug, Drop)]
pub(crate) enum Store<T: PageItem> {
    /// Not more items than one page has.
    Run(List<T>),
    /// More items.
    Pages(Pages<T>),
}

impl<T: PageItem> Store<T> {
    /// The items of the vector, which stay in its memory if they are one run.
    pub(crate) fn from_vec(alloc: Global, items: Vec<T>) -> Result<Store<T>, AllocError>
        ensures items { IfOk result (λ store. items_of store ≡ items.items) }
        ensures stored { IfOk result (λ store. IsStored T.HALF store) }
    {
        if items.len() <= most::<T>() {
            Ok(Store::Run(List::from_vec(items)))
        } else {
            Ok(Store::Pages(Pages::new(alloc, items.as_slice())?))
        }
    }
}
