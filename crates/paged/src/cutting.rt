ghost use Rattle.std.specs.Prelude.{◌≡◌, ◌+◌, ◌<◌, ◌≤◌, ◌++◌, length, IfOk};
ghost use Rattle.std.specs.List.{All};
ghost use Rattle.paged.specs.Pages.{flat, HasLength};

use crate::items::{PageItem, most};
use crate::lists::List;
use std::alloc::{AllocError, Global};

/// Three runs of items, one behind the other.
pub(crate) fn joined<T: Copy>(
    alloc: Global,
    front: &[T],
    middle: &[T],
    back: &[T],
) -> Result<Vec<T>, AllocError>
    ensures { IfOk result (λ items. items.items ≡ front.now ++ (middle.now ++ back.now)) }
{
    let size = front
        .len()
        .saturating_add(middle.len())
        .saturating_add(back.len());
    let mut items = Vec::with_capacity(alloc, size)?;
    items.extend_from_slice(front)?;
    items.extend_from_slice(middle)?;
    items.extend_from_slice(back)?;
    Ok(items)
}

/// A page with these items, which are copied.
fn page_of<T: Copy>(alloc: Global, items: &[T]) -> Result<List<T>, AllocError>
    ensures { IfOk result (λ page. page ≡ items.now) }
{
    Ok(List::from_vec(Vec::from_slice(alloc, items)?))
}

/// Cuts items into pages: half full ones, and a last one with all that is left.
pub(crate) fn pages_of<T: PageItem>(alloc: Global, items: &[T]) -> Result<Vec<List<T>>, AllocError>
    requires { T.HALF ≤ length items.now }
    ensures whole { IfOk result (λ pages. flat pages.items ≡ items.now) }
    ensures each { IfOk result (λ pages. All (HasLength T.HALF (T.HALF + T.HALF)) pages.items) }
{
    let mut pages = Vec::new(alloc);
    let mut rest = items;
    while rest.len() > most::<T>() {
        let (page, behind) = rest.split_at(T::HALF);
        pages.push(page_of(alloc, page)?)?;
        rest = behind;
    }
    pages.push(page_of(alloc, rest)?)?;
    Ok(pages)
}
