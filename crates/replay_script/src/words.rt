ghost use Rattle.std.specs.Prelude.{◌≡◌, IfOk, string_bytes};
ghost use Rattle.replay_script.specs.Words.{names, name_of, word_named};

use name_table::{NameTable, rows};
use std::alloc::{AllocError, Global};

/// A word that a line may begin with, in the order of the table of moves.
#[derive(Clone, Copy, Debug, PartialEq, Eq)]
pub(crate) enum Word {
    Daemon,
    Load,
    Editor,
    Typed,
    Up,
    Down,
    Settle,
    Close,
    Open,
    Cut,
    Show,
    File,
    Held,
    Link,
    Pass,
    Copy,
    Sync,
    Unlink,
    Outside,
    Sweep,
    Report,
    Disk,
    Crash,
    Restart,
    Stop,
    Begin,
    Hear,
    End,
}

/// The words, each at the place of its number.
const WORDS: [Word; 28] = [
    Word::Daemon,
    Word::Load,
    Word::Editor,
    Word::Typed,
    Word::Up,
    Word::Down,
    Word::Settle,
    Word::Close,
    Word::Open,
    Word::Cut,
    Word::Show,
    Word::File,
    Word::Held,
    Word::Link,
    Word::Pass,
    Word::Copy,
    Word::Sync,
    Word::Unlink,
    Word::Outside,
    Word::Sweep,
    Word::Report,
    Word::Disk,
    Word::Crash,
    Word::Restart,
    Word::Stop,
    Word::Begin,
    Word::Hear,
    Word::End,
];

/// The table of the words' names.
fn names() -> NameTable<28>
    ensures { result ≡ names }
{
    rows! {
        0 => "daemon",
        1 => "load",
        2 => "editor",
        3 => "type",
        4 => "up",
        5 => "down",
        6 => "settle",
        7 => "close",
        8 => "open",
        9 => "cut",
        10 => "show",
        11 => "file",
        12 => "held",
        13 => "link",
        14 => "pass",
        15 => "copy",
        16 => "sync",
        17 => "unlink",
        18 => "outside",
        19 => "sweep",
        20 => "report",
        21 => "disk",
        22 => "crash",
        23 => "restart",
        24 => "stop",
        25 => "begin",
        26 => "hear",
        27 => "end",
    }
}

impl Word {
    /// The word of this name.
    pub(crate) fn named(name: &str) -> Option<Word>
        ensures { result ≡ word_named name.now }
    {
        let number = names().find_word(name)? as usize;
        if number < WORDS.len() {
            Some(WORDS[number])
        } else {
            None
        }
    }

    /// The name of the word.
    pub(crate) fn written(self, alloc: Global) -> Result<String, AllocError>
        ensures { IfOk result (λ name. string_bytes name ≡ name_of self) }
    {
        let names = names();
        match names.find_number(self as u64) {
            Some(name) => String::from_str(alloc, name),
            None => Ok(String::new(alloc)),
        }
    }
}
