//! Texts are read of the changes when they are first asked for, and are at hand from then on.
ghost use Rattle.std.specs.Prelude.{IsTrue, OnOk};
ghost use Rattle.daemon_history.specs.Shown.{shown};
ghost use Rattle.daemon_texts.specs.Texts.{AreAtHand};
ghost use Rattle.store_daemon.specs.Fetching.{Fetches, FetchesFor, asks_to_open};

use daemon_links::Files;
use file_uri::Base;
use message_steps::path_to_open;
use outside::Disk;
use replica_disk::Store;
use rpc_message::{FromEditor, Refusal};
use std::alloc::{AllocError, Global};
use tt_base::SharedPath;

/// The text at a path comes to hand, if there is a file.
fn fetch<D: Disk>(
    alloc: Global,
    store: &Store<D>,
    files: &mut Files,
    path: SharedPath,
) -> Result<(), AllocError>
    requires live { IsTrue store.now.live }
    requires at_hand { AreAtHand (shown store.now) files.old }
    ensures { OnOk result (Fetches (shown store.now) files.old files.new path) }
{
    if files.view(&path).is_some() {
        return Ok(());
    }
    match store.view(alloc, &path)? {
        Some(text) => files.put(path, text),
        None => Ok(()),
    }
}

/// The text at the path that is opened by what was asked comes to hand.
pub(crate) fn fetch_asked<D: Disk>(
    alloc: Global,
    base: &Base,
    store: &Store<D>,
    files: &mut Files,
    asked: &Result<FromEditor, Refusal>,
) -> Result<(), AllocError>
    requires live { IsTrue store.now.live }
    requires at_hand { AreAtHand (shown store.now) files.old }
    ensures { OnOk result (FetchesFor (shown store.now) files.old files.new (asks_to_open base.now asked.now)) }
{
    let Ok(message) = asked else {
        return Ok(());
    };
    match path_to_open(alloc, base, message)? {
        Some(path) => fetch(alloc, store, files, path),
        None => Ok(()),
    }
}
