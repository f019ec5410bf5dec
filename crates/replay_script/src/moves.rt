use outside::Mode;
use tt_base::{Blob, Content, SharedPath, Text};

/// One move of a script, with its arguments in the order of the line that asks for it.
///
/// Daemons and editors are numbered from 0 in the order of their making. Places and lengths of a
/// text count scalar values.
#[derive(Debug, Drop)]
pub enum Move {
    /// `daemon D`: starts daemon D on an empty disk and folder.
    Daemon(u64),
    /// `load D STR HEX`: starts daemon D with a base, on a disk that holds these bytes.
    Load(u64, Text, Blob),
    /// `editor E D PATH STR`: connects editor E to daemon D with a file and the text that it shows.
    Editor(u64, u64, SharedPath, Text),
    /// `type E POS DEL STR`: from place POS on, DEL characters give way to a text.
    Typed(u64, u64, u64, Text),
    /// `up E`: delivers the first frame from editor E to its daemon.
    Up(u64),
    /// `down E`: delivers the first frame to editor E.
    Down(u64),
    /// `settle E`: delivers all that is under way from editor E and then all that is under way to it.
    Settle(u64),
    /// `close E`: editor E closes its file.
    Close(u64),
    /// `open E`: editor E opens its file, on a new connection where it has none.
    Open(u64),
    /// `cut E`: the connection of editor E ends.
    Cut(u64),
    /// `show E`: prints what editor E shows.
    Show(u64),
    /// `file D PATH`: prints the text that daemon D has of a file.
    File(u64, SharedPath),
    /// `held D`: prints how many changes daemon D holds.
    Held(u64),
    /// `link A B`: connects the daemons A and B.
    Link(u64, u64),
    /// `pass A B K`: delivers the K-th frame, from 0, that is under way from A to B.
    Pass(u64, u64, u64),
    /// `copy A B K`: delivers that frame and leaves it under way.
    Copy(u64, u64, u64),
    /// `sync A B N`: makes at most N deliveries on the link of A and B.
    Sync(u64, u64, u64),
    /// `unlink A B`: the link of A and B ends.
    Unlink(u64, u64),
    /// `outside D PATH CONTENT`: the folder of daemon D has this content at the path.
    Outside(u64, SharedPath, Content),
    /// `sweep D`: daemon D walks its folder and handles what it finds.
    Sweep(u64),
    /// `report D PATH CONTENT`: daemon D handles this content of the path.
    Report(u64, SharedPath, Content),
    /// `disk D PATH`: prints what the folder of daemon D has at the path.
    Disk(u64, SharedPath),
    /// `crash D`: daemon D stops.
    Crash(u64),
    /// `restart D`: daemon D is opened on its disk and folder.
    Restart(u64),
    /// `stop D K MODE`: arms the disk and folder of daemon D to stop at the K-th counted call.
    Stop(u64, u64, Mode),
    /// `begin D C editor`: connection C to daemon D begins, on which bytes of an editor are heard.
    BeginEditor(u64, u64),
    /// `begin D C peer`: connection C to daemon D begins, on which bytes of a daemon are heard.
    BeginPeer(u64, u64),
    /// `hear D C HEX`: daemon D hears these bytes on connection C.
    Hear(u64, u64, Blob),
    /// `end D C`: connection C to daemon D ends.
    End(u64, u64),
}
