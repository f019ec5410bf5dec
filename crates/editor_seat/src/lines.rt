ghost use Rattle.std.specs.Prelude.{◌≡◌, [], IfOk, IsOk, string_bytes};
ghost use Rattle.frame_world.specs.Lines.{note_line};

use editor_client::HeardNote;
use std::alloc::{AllocError, Global};

/// The line that is printed of what an editor of this number tells of a body: of a refusal its code, and else nothing, which asks for no memory.
pub fn write_note(alloc: Global, number: u64, note: HeardNote) -> Result<String, AllocError>
    ensures line { IfOk result (λ line. string_bytes line ≡ note_line number note) }
    ensures silent { note_line number note ≡ [] → IsOk result }
{
    match note {
        HeardNote::RefusedBy(code) => format!(in alloc; "refused {number} {code}\n"),
        HeardNote::Shown | HeardNote::Ignored | HeardNote::Replied | HeardNote::Other => {
            Ok(String::new(alloc))
        }
    }
}
