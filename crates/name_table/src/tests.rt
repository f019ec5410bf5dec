ghost use Rattle.std.specs.Prelude.{◌≡◌, [], ◌∷◌, codes};

use super::NameTable;
use crate::rows;

/// The words of a small protocol.
fn methods() -> NameTable<5>
    ensures { result ≡ (1, codes "open") ∷ (2, codes "close") ∷ (3, codes "edit") ∷ (4, codes "cursor") ∷ (5, codes "shutdown") ∷ [] }
{
    rows! { 1 => "open", 2 => "close", 3 => "edit", 4 => "cursor", 5 => "shutdown" }
}

#[test]
fn words_and_numbers(rt: HostRuntime) {
    let table = methods();
    let held = [
        (1, "open"),
        (2, "close"),
        (3, "edit"),
        (4, "cursor"),
        (5, "shutdown"),
    ];
    for (number, word) in held {
        assert_eq!(rt; table.find_word(word), Some(number), "at {word}");
        assert!(rt; table.find_number(number) == Some(word), "at {number}");
    }
    for word in ["save", "", "Open", "ope", "opens"] {
        assert_eq!(rt; table.find_word(word), None, "at {word}");
    }
    for number in [0, 6, u64::MAX] {
        assert!(rt; table.find_number(number).is_none(), "at {number}");
    }
}

#[test]
fn a_table_may_be_empty(rt: HostRuntime) {
    let table: NameTable<0> = rows! {};
    assert_eq!(rt; table.find_word("open"), None);
    assert!(rt; table.find_number(0).is_none());
}
