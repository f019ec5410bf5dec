ghost use Rattle.std.specs.Prelude.{◌≡◌, ◌↔◌, ℕ, List, length, Some, Contains};
ghost use Rattle.std.specs.Option.{option_map};
ghost use Rattle.name_table.specs.Rows.{number_of, word_of, HasDistinctRows};
ghost use Rattle.name_table.specs.Written.{rows_of};

use std::marker::Model;

/// A table of `N` rows, each a number and a word, all numbers distinct and all words distinct.
///
/// Contracts see it as the list of its rows, in order, a row as the pair of its number and its word's UTF-8 bytes.
/// The macro `rows!` makes one from its rows.
#[derive(Debug, Drop)]
pub struct NameTable<const N: usize> {
    rows: &'static [(u64, &'static str)],
}

impl<const N: usize> Model for NameTable<N> {
    ghost use Rattle.std.specs.Prelude.{◌≡◌, List, ℕ, length};
    ghost use Rattle.name_table.specs.Rows.{HasDistinctRows};
    ghost use Rattle.name_table.specs.Written.{rows_of};

    ghost Value = { List (ℕ × List ℕ) };

    ghost view = { λ t. rows_of t.rows.now };

    ghost invariant = { λ t. (length t.rows.now ≡ N) × HasDistinctRows (rows_of t.rows.now) };
}

impl<const N: usize> NameTable<N> {
    /// The table of these rows, of which there are `N`, with distinct numbers and distinct words.
    pub fn new(rows: &'static [(u64, &'static str)]) -> NameTable<N>
        requires count { length rows.now ≡ N }
        requires distinct { HasDistinctRows (rows_of rows.now) }
        ensures { result ≡ rows_of rows.now }
    {
        NameTable { rows }
    }

    /// What the type keeps: there are `N` rows, with distinct numbers and distinct words.
    pub fn rows_are_distinct(&self)
        ensures count { length self.now ≡ N }
        ensures distinct { HasDistinctRows self.now }
    {
        let _ = &self.rows;
    }

    /// The number of the row that has the word, `None` exactly where no row has it.
    pub fn find_word(&self, word: &str) -> Option<u64>
        ensures value { result ≡ number_of word.now self.now }
        ensures row { (number : ℕ) → (result ≡ Some number) ↔ Contains self.now (number, word.now) }
    {
        number_in(self.rows, word)
    }

    /// The word of the row that has the number, `None` exactly where no row has it.
    pub fn find_number(&self, number: u64) -> Option<&str>
        ensures value { option_map (λ word. word.now) result ≡ word_of number self.now }
        ensures row { (word : List ℕ) → (option_map (λ word. word.now) result ≡ Some word) ↔ Contains self.now (number, word) }
    {
        word_in(self.rows, number)
    }
}

/// The number of the first of the rows that has the word.
fn number_in(rows: &[(u64, &str)], word: &str) -> Option<u64>
    ensures { result ≡ number_of word.now (rows_of rows.now) }
{
    for (number, name) in rows {
        if *name == word {
            return Some(*number);
        }
    }
    None
}

/// The word of the first of the rows that has the number.
fn word_in<'a>(rows: &[(u64, &'a str)], number: u64) -> Option<&'a str>
    ensures { option_map (λ word. word.now) result ≡ word_of number (rows_of rows.entry.now) }
{
    for (held, name) in rows {
        if *held == number {
            return Some(*name);
        }
    }
    None
}

/// Makes a `NameTable` from its rows, as in `rows! { 1 => "open", 2 => "close" }`.
#[macro_export]
macro_rules! rows {
    ($($number:literal => $word:literal),* $(,)?) => {
        $crate::NameTable::new(&[$(($number, $word)),*])
    };
}
