ghost use Rattle.std.specs.Prelude.{◌≡◌, ◌<◌, ◌^◌, ◌-◌, ◌++◌, length, map, flat_map, IfOk, IfSome, OnOk, OnErr};
ghost use Rattle.delta.specs.Cells.{base_length};
ghost use Rattle.daemon_core.specs.History.{text_at};
ghost use Rattle.daemon_core.specs.Laws.{IsServing};
ghost use Rattle.daemon_core.specs.Outcome.{told_links};
ghost use Rattle.daemon_core.specs.Outputs.{told_outputs, send, reply, stop_if};
ghost use Rattle.daemon_core.specs.Sending.{EachCanBeSent, messages_told};
ghost use Rattle.daemon_server.specs.Following.{answer_of};
ghost use Rattle.daemon_server.specs.Parts.{state_of};
ghost use Rattle.daemon_server.specs.Telling.{effects_if, made_if, AllConnected, AreRead, Serves};

use crate::handled::send_reply;
use crate::messages::{Heard, hear};
use daemon_core::Output;
use daemon_links::{Change, Connections, Files, OpenFiles, send_all};
use file_uri::Base;
use std::alloc::{AllocError, Global};
use tt_base::List;

/// A frame that is served, but for the change of the files.
#[derive(Debug, Drop)]
pub(crate) struct Served {
    /// All that is sent.
    pub(crate) sent: List<Output>,
    /// The change that is to be made, if there is one.
    pub(crate) change: Option<Change>,
}

/// The change is made, if there is one. After want of memory the files are as they were.
pub(crate) fn make_change(
    alloc: Global,
    files: &mut Files,
    change: &Option<Change>,
) -> Result<(), AllocError>
    requires fits { IfSome change.now (λ c. base_length c.delta ≡ length (text_at files.old c.path)) }
    requires room { files.old.held < 2 ^ 64 - 2 }
    ensures ok { OnOk result (files.new ≡ made_if change.now files.old) }
    ensures err { OnErr result (files.new ≡ files.old) }
{
    match change {
        None => Ok(()),
        Some(change) => files.change(alloc, &change.path, &change.delta),
    }
}

/// The other connections are told of the change, if there is one.
fn tell_others(
    alloc: Global,
    base: &Base,
    files: &Files,
    others: &mut Connections,
    change: &Option<Change>,
    sent: &mut Vec<Output>,
) -> Result<(), AllocError>
    requires fits { IfSome change.now (λ c. base_length c.delta ≡ length (text_at files.now c.path)) }
    requires linked { AllConnected files.now others.old }
    requires room { files.now.held < 2 ^ 64 - 2 }
    ensures links { OnOk result (others.new ≡ map (λ c. (c.0, told_links (effects_if change.now) c.1)) others.old) }
    ensures sent { OnOk result (sent.new.items ≡ sent.old.items ++ flat_map (told_outputs base.now (effects_if change.now)) others.old) }
    ensures read { OnOk result (EachCanBeSent (flat_map (messages_told base.now (effects_if change.now)) others.old)) }
{
    match change {
        None => Ok(()),
        Some(change) => others.tell(alloc, base, files, change, sent),
    }
}

/// The connection of a message is sent the reply and what else it is sent, and the others what they are told.
fn send_heard(
    alloc: Global,
    base: &Base,
    files: &Files,
    others: &mut Connections,
    n: u64,
    heard: Heard,
) -> Result<Served, AllocError>
    requires fits { IfSome heard.handled.change (λ c. base_length c.delta ≡ length (text_at files.now c.path)) }
    requires linked { AllConnected files.now others.old }
    requires room { files.now.held < 2 ^ 64 - 2 }
    ensures links { OnOk result (others.new ≡ map (λ c. (c.0, told_links (effects_if heard.handled.change) c.1)) others.old) }
    ensures change { IfOk result (λ served. served.change ≡ heard.handled.change) }
    ensures sent { IfOk result (λ served. served.sent ≡ map (send n) (reply heard.id (answer_of heard.handled.answer)) ++ map (send n) heard.handled.messages
        ++ flat_map (told_outputs base.now (effects_if heard.handled.change)) others.old ++ stop_if heard.handled.shuts_down) }
    ensures read { OnOk result (AreRead base.now heard others.old) }
{
    let Heard { id, handled } = heard;
    let mut sent = Vec::new(alloc);
    send_reply(alloc, n, id, handled.answer, &mut sent)?;
    send_all(alloc, n, handled.messages.as_slice(), &mut sent)?;
    tell_others(alloc, base, files, others, &handled.change, &mut sent)?;
    if handled.shuts_down {
        sent.push(Output::Shutdown)?;
    }
    Ok(Served {
        sent: List::from_vec(sent),
        change: handled.change,
    })
}

/// A frame of connection `n` is served, but for the change of the files.
pub(crate) fn serve_frame(
    alloc: Global,
    base: &Base,
    files: &Files,
    connections: &mut Connections,
    n: u64,
    body: &[u8],
) -> Result<Served, AllocError>
    requires serving { IsServing (state_of base.now files.now connections.old) }
    requires room { files.now.held < 2 ^ 64 - 2 }
    ensures { IfOk result (Serves (state_of base.now files.now connections.old) n body.now connections.new) }
{
    match connections.take(n) {
        Some(mut own) => {
            let heard = hear(alloc, base, files, &mut own, body)?;
            let served = send_heard(alloc, base, files, connections, n, heard)?;
            connections.put(n, own)?;
            Ok(served)
        }
        None => {
            let heard = hear(alloc, base, files, &mut OpenFiles::none(alloc), body)?;
            let served = send_heard(alloc, base, files, connections, n, heard)?;
            Ok(served)
        }
    }
}
