//! The lines that are printed of a daemon, each with its LF.

ghost use Rattle.std.specs.Prelude.{◌≡◌, ◌++◌, IfOk, OnOk, string_bytes};
ghost use Rattle.std.specs.Option.{option_copied};
ghost use Rattle.daemon_core.specs.declared.events.Output.TheVariants.{Send};
ghost use Rattle.plain_world.specs.Lines.{file_line, held_line, hung_line, told_line, text_or_absent};

use replay_script::{write_path, write_text};
use std::alloc::{AllocError, Global};
use tt_base::{Blob, SharedPath, Text};

/// The text of a file, or that there is none.
fn write_view(alloc: Global, text: Option<&Text>) -> Result<String, AllocError>
    ensures { IfOk result (λ written. string_bytes written ≡ text_or_absent (option_copied text.entry)) }
{
    match text {
        Some(text) => write_text(alloc, text),
        None => String::from_str(alloc, "absent"),
    }
}

/// The line of a file of daemon `d`.
pub(crate) fn write_file(
    alloc: Global,
    d: u64,
    path: &SharedPath,
    text: Option<&Text>,
) -> Result<String, AllocError>
    ensures { IfOk result (λ line. string_bytes line ≡ file_line d path.now (option_copied text.entry)) }
{
    let path = write_path(alloc, path)?;
    let text = write_view(alloc, text)?;
    let mut line = String::new(alloc);
    write!(line, "file {d} {path} {text}\n")?;
    Ok(line)
}

/// The line that daemon `d` holds so many changes.
pub(crate) fn write_held(alloc: Global, d: u64, held: u64) -> Result<String, AllocError>
    ensures { IfOk result (λ line. string_bytes line ≡ held_line d held) }
{
    let mut line = String::new(alloc);
    write!(line, "held {d} {held}\n")?;
    Ok(line)
}

/// The line that connection `number` of daemon `d`, which a script feeds, has ended by a fault of its frames.
pub fn write_hung(alloc: Global, d: u64, number: u64) -> Result<String, AllocError>
    ensures { IfOk result (λ line. string_bytes line ≡ hung_line d number) }
{
    let mut line = String::new(alloc);
    write!(line, "hung {d} {number}\n")?;
    Ok(line)
}

/// Adds the line of a frame that daemon `d` sends on connection `number`, which a script feeds.
///
/// After want of memory a part of it may be there.
pub fn push_told(
    alloc: Global,
    lines: &mut String,
    d: u64,
    number: u64,
    frame: &Blob,
) -> Result<(), AllocError>
    ensures { OnOk result (string_bytes lines.new ≡ string_bytes lines.old ++ told_line d (Send number frame.now)) }
{
    let digits = hex::encode(alloc, frame.as_slice())?;
    write!(lines, "told {d} {number} {digits}\n")
}
