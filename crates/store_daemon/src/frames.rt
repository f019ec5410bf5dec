//! A frame is served: its message is done in the store, and all that is sent for it is written.
ghost use Rattle.std.specs.Prelude.{◌≡◌, ◌<◌, ◌^◌, ◌-◌, ◌++◌, length, map, flat_map, IsTrue, IfOk, IfSome, OnOk};
ghost use Rattle.delta.specs.Cells.{base_length};
ghost use Rattle.daemon_core.specs.History.{text_at};
ghost use Rattle.daemon_core.specs.Laws.{IsServing};
ghost use Rattle.daemon_core.specs.Outcome.{told_links};
ghost use Rattle.daemon_core.specs.Sending.{EachCanBeSent, messages_told};
ghost use Rattle.daemon_events.specs.Outputs as events;
ghost use Rattle.daemon_events.specs.Outputs.{told_outputs};
ghost use Rattle.daemon_history.specs.Holding.{held};
ghost use Rattle.daemon_history.specs.Shown.{shown};
ghost use Rattle.daemon_texts.specs.Texts.{AreAtHand};
ghost use Rattle.store_daemon.specs.Following.{texts_on, IsServed};
ghost use Rattle.store_daemon.specs.Making.{Carries, told_of, made_of, notices_of};
ghost use Rattle.store_daemon.specs.Serving.{AllConnected, outputs_for, AreRead, CanDo, outcome_asked, IsHeard};

use crate::fetching::fetch_asked;
use crate::making::{Done, carry_out, note_opening, refused};
use daemon_core::{Notice, Output};
use daemon_links::{Change, Connections, Files, OpenFiles, send_all};
use file_uri::Base;
use message_steps::{Heard, hear, send_reply};
use outside::Disk;
use replica_disk::Store;
use rpc_message::{FromEditor, MessageId, Refusal};
use std::alloc::{AllocError, Global};
use tt_base::List;

/// The text at hand is changed, if there is a change. After want of memory the texts are as they were.
fn change_texts(alloc: Global, files: &mut Files, change: &Option<Change>) -> Result<(), AllocError>
    requires fits { IfSome change.now (λ c. base_length c.delta ≡ length (text_at files.old c.path)) }
    requires room { files.old.held < 2 ^ 64 - 2 }
    ensures { OnOk result (files.new ≡ made_of change.now files.old) }
{
    match change {
        None => Ok(()),
        Some(change) => files.change(alloc, &change.path, &change.delta),
    }
}

/// The other connections are told of the change, if there is one.
fn tell_others(
    alloc: Global,
    base: &Base,
    files: &Files,
    others: &mut Connections,
    change: &Option<Change>,
    sent: &mut Vec<Output>,
) -> Result<(), AllocError>
    requires fits { IfSome change.now (λ c. base_length c.delta ≡ length (text_at files.now c.path)) }
    requires linked { AllConnected files.now others.old }
    requires room { files.now.held < 2 ^ 64 - 2 }
    ensures links { OnOk result (others.new ≡ map (λ c. (c.0, told_links (told_of change.now) c.1)) others.old) }
    ensures sent { OnOk result (sent.new.items ≡ sent.old.items ++ flat_map (told_outputs base.now (told_of change.now)) others.old) }
    ensures read { OnOk result (EachCanBeSent (flat_map (messages_told base.now (told_of change.now)) others.old)) }
{
    match change {
        None => Ok(()),
        Some(change) => others.tell(alloc, base, files, change, sent),
    }
}

/// What a person is told comes behind all frames, and then that the daemon is to stop.
fn push_last(
    sent: &mut Vec<Output>,
    notice: Option<Notice>,
    shuts_down: bool,
) -> Result<(), AllocError>
    ensures { OnOk result (sent.new.items ≡ sent.old.items ++ (map events.told (notices_of notice) ++ events.stop_if shuts_down)) }
{
    if let Some(notice) = notice {
        sent.push(Output::Notice(notice))?;
    }
    if shuts_down {
        sent.push(Output::Shutdown)?;
    }
    Ok(())
}

/// What was done is sent, and the texts at hand are changed.
fn send_done(
    alloc: Global,
    base: &Base,
    files: &mut Files,
    others: &mut Connections,
    n: u64,
    id: Option<MessageId>,
    done: Done,
) -> Result<List<Output>, AllocError>
    requires fits { IfSome done.step.change (λ c. base_length c.delta ≡ length (text_at files.old c.path)) }
    requires linked { AllConnected files.old others.old }
    requires room { files.old.held < 2 ^ 64 - 2 }
    ensures texts { OnOk result (files.new ≡ made_of done.step.change files.old) }
    ensures links { OnOk result (others.new ≡ map (λ c. (c.0, told_links (told_of done.step.change) c.1)) others.old) }
    ensures sent { IfOk result (λ sent. sent ≡ outputs_for base.now n id done others.old) }
    ensures read { OnOk result (AreRead base.now id done others.old) }
{
    let Done { step, notice } = done;
    let mut sent = Vec::new(alloc);
    send_reply(alloc, n, id, step.answer, &mut sent)?;
    send_all(alloc, n, step.messages.as_slice(), &mut sent)?;
    tell_others(alloc, base, files, others, &step.change, &mut sent)?;
    push_last(&mut sent, notice, step.shuts_down)?;
    change_texts(alloc, files, &step.change)?;
    Ok(List::from_vec(sent))
}

/// What was asked is done, but for the note of the path that it opens; a body that is no message is answered.
fn do_asked<D: Disk>(
    alloc: Global,
    base: &Base,
    store: &mut Store<D>,
    files: &Files,
    own: &mut OpenFiles,
    others: &Connections,
    asked: Result<FromEditor, Refusal>,
) -> Result<Done, AllocError>
    requires live { IsTrue store.old.live }
    requires can { CanDo (shown store.old) files.now base.now own.old others.now asked }
    ensures carries { IfOk result (Carries (shown store.old) (shown store.new) files.now base.now own.old own.new
        (outcome_asked (shown store.old) base.now own.old asked)) }
    ensures live { OnOk result (IsTrue store.new.live) }
    ensures rests { store.new.journal ≡ store.old.journal }
{
    match asked {
        Ok(message) => carry_out(alloc, base, store, files, own, message),
        Err(refusal) => {
            let done = refused(alloc, refusal)?;
            Ok(done)
        }
    }
}

/// What was heard is done and noted, and all that is sent for it is written.
fn serve_heard<D: Disk>(
    alloc: Global,
    base: &Base,
    store: &mut Store<D>,
    files: &mut Files,
    own: &mut OpenFiles,
    others: &mut Connections,
    n: u64,
    heard: Heard,
) -> Result<List<Output>, AllocError>
    requires live { IsTrue store.old.live }
    requires can { CanDo (shown store.old) files.old base.now own.old others.old heard.asked }
    ensures heard { IfOk result (IsHeard (shown store.old) (shown store.new) files.old files.new base.now own.old own.new others.old others.new
        n heard.id heard.asked) }
    ensures live { OnOk result (IsTrue store.new.live) }
    ensures rests { store.new.journal ≡ store.old.journal }
{
    let Heard { id, asked } = heard;
    let done = do_asked(alloc, base, store, files, own, others, asked)?;
    note_opening(alloc, store, &done.step.opens)?;
    send_done(alloc, base, files, others, n, id, done)
}

/// A frame of connection `n` is served; what it records is staged.
pub(crate) fn serve_frame<D: Disk>(
    alloc: Global,
    base: &Base,
    store: &mut Store<D>,
    files: &mut Files,
    connections: &mut Connections,
    n: u64,
    body: &[u8],
) -> Result<List<Output>, AllocError>
    requires live { IsTrue store.old.live }
    requires serving { IsServing (texts_on base.now files.old connections.old) }
    requires at_hand { AreAtHand (shown store.old) files.old }
    requires room { held (shown store.old) < 2 ^ 63 }
    ensures served { IfOk result (IsServed base.now store.old store.new n body.now connections.old connections.new files.new) }
    ensures rests { store.new.journal ≡ store.old.journal }
{
    let heard = hear(alloc, body)?;
    fetch_asked(alloc, base, store, files, &heard.asked)?;
    match connections.take(n) {
        Some(mut own) => {
            let sent = serve_heard(alloc, base, store, files, &mut own, connections, n, heard)?;
            connections.put(n, own)?;
            Ok(sent)
        }
        None => {
            let mut own = OpenFiles::none(alloc);
            let sent = serve_heard(alloc, base, store, files, &mut own, connections, n, heard)?;
            Ok(sent)
        }
    }
}
