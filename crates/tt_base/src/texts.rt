ghost use Rattle.std.specs.Prelude.{◌≡◌, ◌+◌, ◌<◌, ◌≤◌, ◌^◌, ◌==◌, nat_eq, [], ◌∷◌, ◌++◌, length, take, drop, slice_index, slice_range, IfOk, IsOkAnd, OnOk, OnErr, encode_utf8_all, string_bytes};
ghost use Rattle.std.specs.List.{splice};
ghost use Rattle.std.specs.Str.{chars};
ghost use Rattle.std.specs.Cmp.{partial_equiv_from_equiv};
ghost use Rattle.std.specs.Cmp.Lexicographic.{pointwise, nat_list_eq_equiv};
ghost use Rattle.paged.specs.Chars.{is_line_end, line_ends};
ghost use Rattle.paged.specs.Marks.{behind};
ghost use Rattle.paged.specs.Pages.{flat};

use crate::bytes::Blob;
use paged::{List, Paged, Runs};
use std::alloc::{AllocError, Global};
use std::marker::Model;

/// A text, which contracts see as the list of its characters.
///
/// A character is a Unicode scalar value, and lengths and places of a text count scalar values. A long
/// text is kept in pages, so that a change of it costs a page and not the whole.
#[derive(Debug, Drop)]
pub struct Text {
    chars: Paged<char>,
}

impl Model for Text {
    ghost use Rattle.std.specs.Prelude.{List, ℕ};

    ghost Value = { List ℕ };

    ghost view = { λ t. t.chars };
}

impl Text {
    /// The text with no characters. It takes no memory, so none can be wanting.
    pub fn empty(alloc: Global) -> Result<Text, AllocError>
        ensures { IsOkAnd result (λ text. text ≡ []) }
    {
        Ok(Text {
            chars: Paged::empty(alloc),
        })
    }

    /// The characters that UTF-8 (the Unicode Standard, section 3.9) decodes from `s`.
    pub fn from_str(alloc: Global, s: &str) -> Result<Text, AllocError>
        ensures { IfOk result (λ text. text ≡ chars s.now) }
    {
        let all: Vec<char> = s.chars().collect(alloc)?;
        Text::from_vec(alloc, all)
    }

    /// The characters of the vector. If they fit one page, they stay in its memory.
    pub fn from_vec(alloc: Global, chars: Vec<char>) -> Result<Text, AllocError>
        ensures { IfOk result (λ text. text ≡ chars.items) }
    {
        Ok(Text {
            chars: Paged::from_vec(alloc, chars)?,
        })
    }

    /// The number of characters.
    pub fn len(&self) -> usize
        ensures { result ≡ length self.now }
    {
        self.chars.len()
    }

    /// Whether there are no characters.
    pub fn is_empty(&self) -> bool
        ensures { result ≡ (length self.now == 0) }
    {
        self.chars.is_empty()
    }

    /// The character at place `i`, counted from 0.
    pub fn char_at(&self, i: usize) -> char
        requires { i < length self.now }
        ensures { result ≡ slice_index self.now i }
    {
        self.chars.at(i)
    }

    /// The characters, page by page. No page is empty.
    pub fn pages(&self) -> &[List<char>]
        ensures { flat result.now ≡ self.now }
    {
        self.chars.pages()
    }

    /// Reads the characters from a place on, run by run.
    pub fn runs(&self, place: usize) -> Runs<'_, char>
        requires { place ≤ length self.now }
        ensures { result ≡ drop place self.now }
    {
        self.chars.runs(place)
    }

    /// Copies all characters behind those of a vector. After want of memory that has its characters as
    /// before.
    pub fn append_to(&self, chars: &mut Vec<char>) -> Result<(), AllocError>
        ensures ok { OnOk result (chars.new.items ≡ chars.old.items ++ self.now) }
        ensures err { OnErr result (chars.new.items ≡ chars.old.items) }
    {
        self.runs(0).copy_to(chars, self.len())
    }

    /// A copy of the characters from `start` up to `end`.
    pub fn copied_range(&self, alloc: Global, start: usize, end: usize) -> Result<Text, AllocError>
        requires order { start ≤ end }
        requires within { end ≤ length self.now }
        ensures { IfOk result (λ text. text ≡ slice_range self.now start end) }
    {
        let mut chars = Vec::with_capacity(alloc, end - start)?;
        self.runs(start).copy_to(&mut chars, end - start)?;
        Text::from_vec(alloc, chars)
    }

    /// Adds a character at the end. After want of memory the text is as before.
    pub fn push(&mut self, alloc: Global, ch: char) -> Result<(), AllocError>
        ensures ok { OnOk result (self.new ≡ self.old ++ ch ∷ []) }
        ensures err { OnErr result (self.new ≡ self.old) }
    {
        self.chars.push(alloc, ch)
    }

    /// Puts characters in the place of those from `start` up to `end`. After want of memory the text
    /// is as before.
    pub fn splice(
        &mut self,
        alloc: Global,
        start: usize,
        end: usize,
        run: &[char],
    ) -> Result<(), AllocError>
        requires order { start ≤ end }
        requires within { end ≤ length self.old }
        ensures ok { OnOk result (self.new ≡ splice self.old start end run.now) }
        ensures err { OnErr result (self.new ≡ self.old) }
    {
        self.chars.splice(alloc, start, end, run)
    }

    /// Puts a text in the place of the characters from `start` up to `end`. After want of memory the
    /// text is as before.
    pub fn splice_text(
        &mut self,
        alloc: Global,
        start: usize,
        end: usize,
        text: &Text,
    ) -> Result<(), AllocError>
        requires order { start ≤ end }
        requires within { end ≤ length self.old }
        ensures ok { OnOk result (self.new ≡ splice self.old start end text.now) }
        ensures err { OnErr result (self.new ≡ self.old) }
    {
        match text.pages() {
            [page] => self.splice(alloc, start, end, page.as_slice()),
            _ => {
                let mut run = Vec::new(alloc);
                text.append_to(&mut run)?;
                self.splice(alloc, start, end, run.as_slice())
            }
        }
    }

    /// The number of characters up to the nth line end, this one included, where there are so many. It
    /// is 0 for n = 0. A line ends at LF.
    pub fn behind_line_ends(&self, n: usize) -> Option<usize>
        ensures { result ≡ behind is_line_end self.now n }
    {
        self.chars.behind(n)
    }

    /// How many lines end before a place.
    pub fn line_ends_before(&self, place: usize) -> usize
        requires { place ≤ length self.now }
        ensures { result ≡ line_ends (take place self.now) }
    {
        self.chars.marked_before(place)
    }

    /// The same characters in memory of their own.
    pub fn copied(&self, alloc: Global) -> Result<Text, AllocError>
        ensures { IfOk result (λ copy. copy ≡ self.now) }
    {
        Ok(Text {
            chars: self.chars.copied(alloc)?,
        })
    }

    /// The text as a string, which is in UTF-8 (the Unicode Standard, section 3.9).
    pub fn to_string(&self, alloc: Global) -> Result<String, AllocError>
        ensures { IfOk result (λ string. string_bytes string ≡ encode_utf8_all self.now) }
    {
        let mut string = String::with_capacity(alloc, self.len())?;
        for page in self.pages() {
            push_chars(&mut string, page.as_slice())?;
        }
        Ok(string)
    }

    /// The text in UTF-8 (the Unicode Standard, section 3.9).
    pub fn to_bytes(&self, alloc: Global) -> Result<Blob, AllocError>
        ensures { IfOk result (λ blob. blob ≡ encode_utf8_all self.now) }
    {
        Ok(Blob::from_vec(self.to_string(alloc)?.into_bytes()))
    }
}

/// Adds characters at the end of a string.
fn push_chars(string: &mut String, chars: &[char]) -> Result<(), AllocError>
    ensures { OnOk result (string_bytes string.new ≡ string_bytes string.old ++ encode_utf8_all chars.now) }
{
    for ch in chars {
        string.push(*ch)?;
    }
    Ok(())
}

impl PartialEq for Text {
    ghost eq = { pointwise nat_eq };

    ghost laws = { partial_equiv_from_equiv nat_list_eq_equiv };

    fn eq(&self, other: &Text) -> bool {
        if self.len() != other.len() {
            return false;
        }
        let mut these = self.runs(0);
        let mut those = other.runs(0);
        loop {
            let run = these.run();
            let other_run = those.run();
            let count = run.len().min(other_run.len());
            if count == 0 {
                return true;
            }
            if run[..count] != other_run[..count] {
                return false;
            }
            these.skip(count);
            those.skip(count);
        }
    }
}

impl Eq for Text {
    ghost laws = { nat_list_eq_equiv };
}
