//! Lists kept in pages, so that a change costs a page and not the whole.
//!
//! A list that fits one page is one vector. A longer one is a list of pages, and beside it stand
//! columns of numbers, one for each page: its length, and how many of its items are marked. A place is
//! found by going over a column until the sum reaches it, and then in one page. A change makes the pages
//! in which it begins and ends anew, cuts what is too long and joins what is too short, so each page
//! is half full at least: the leaves of a B-tree (Bayer and McCreight, 1972) below one level of numbers.
#![tactic(auto)]

mod chars;
mod columns;
mod cutting;
mod items;
mod lists;
mod marks;
mod paged;
mod pages;
mod patches;
mod replacing;
mod runs;
mod stores;

pub use items::PageItem;
pub use lists::List;
pub use paged::Paged;
pub use runs::Runs;

#[cfg(test)]
mod tests;
