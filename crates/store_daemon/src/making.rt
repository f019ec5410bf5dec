//! What a message asks for is done in the store.
ghost use Rattle.std.specs.Prelude.{◌≡◌, ◌∷◌, [], None, IsTrue, IfOk, IfSome, OnOk};
ghost use Rattle.daemon_events.specs.Serving.{noted, clashes, on_message, or_refusal};
ghost use Rattle.daemon_history.specs.Shown.{shown};
ghost use Rattle.store_daemon.specs.Making.{HoldsChange, MakesSo, CarriesStep, CanCarry, Carries, notices_of, refused_step, state_with};
ghost use Rattle.message_steps.specs.Asking as asking;

use daemon_core::Notice;
use daemon_history::laws::{a_made_change_changes_one_text, a_store_shows_what_its_daemon_holds};
use daemon_links::{Change, Files, OpenFiles, Stop};
use file_uri::Base;
use message_steps::{Answer, Step, quiet, take_step};
use outside::Disk;
use replica_disk::{Note, Store, StoreFault};
use rpc_message::{FromEditor, Refusal};
use std::alloc::{AllocError, Global};
use tt_base::SharedPath;

/// What a message has come to.
#[derive(Debug, Drop)]
pub(crate) struct Done {
    /// What was asked for, of which the change is made.
    pub(crate) step: Step,
    /// What is told to a person.
    pub(crate) notice: Option<Notice>,
}

/// Makes a change in the store, or gives the refusal where another has its name.
fn make_change<D: Disk>(
    alloc: Global,
    store: &mut Store<D>,
    change: &Change,
) -> Result<Option<Refusal>, AllocError>
    requires live { IsTrue store.old.live }
    requires can { HoldsChange (shown store.old) change.now }
    ensures makes { IfOk result (MakesSo (shown store.old) change.now (shown store.new)) }
    ensures live { OnOk result (IsTrue store.new.live) }
    ensures rests { store.new.journal ≡ store.old.journal }
{
    a_made_change_changes_one_text();
    a_store_shows_what_its_daemon_holds::<D>();
    change.delta.normal_form();
    let _holds = store.is_live();
    match store.make(alloc, &change.path, &change.delta) {
        Ok(_) => Ok(None),
        Err(StoreFault::TextTooLong(_)) => unreachable!(),
        Err(StoreFault::Clash(held, given)) => Ok(Some(Refusal::Clash { given, held })),
        Err(StoreFault::Memory) => Err(AllocError),
    }
}

/// What is told to a person of a refusal: that two changes have one name.
fn notice_of(alloc: Global, refusal: &Refusal) -> Result<Option<Notice>, AllocError>
    ensures { IfOk result (λ notice. notices_of notice ≡ clashes refusal.now) }
{
    match refusal {
        Refusal::Clash { given, held } => Ok(Some(Notice::Clash(
            held.copied(alloc)?,
            given.copied(alloc)?,
        ))),
        _ => Ok(None),
    }
}

/// A message is refused.
pub(crate) fn refused(alloc: Global, refusal: Refusal) -> Result<Done, AllocError>
    ensures step { IfOk result (λ done. done.step ≡ refused_step refusal) }
    ensures notice { IfOk result (λ done. notices_of done.notice ≡ clashes refusal) }
{
    let notice = notice_of(alloc, &refusal)?;
    Ok(Done {
        step: quiet(alloc, Answer::Refuses(refusal), false),
        notice,
    })
}

/// The change of a step is made in the store. Where another has its name the message is refused, and the link at its path ends.
fn make_step<D: Disk>(
    alloc: Global,
    store: &mut Store<D>,
    own: &mut OpenFiles,
    step: Step,
) -> Result<Done, AllocError>
    requires live { IsTrue store.old.live }
    requires can { IfSome step.change (HoldsChange (shown store.old)) }
    ensures carries { IfOk result (CarriesStep (shown store.old) step.change (shown store.new) step own.old own.new) }
    ensures live { OnOk result (IsTrue store.new.live) }
    ensures rests { store.new.journal ≡ store.old.journal }
{
    let Some(change) = &step.change else {
        return Ok(Done { step, notice: None });
    };
    match make_change(alloc, store, change)? {
        None => Ok(Done { step, notice: None }),
        Some(refusal) => {
            let _link = own.close(&change.path);
            refused(alloc, refusal)
        }
    }
}

/// A message is carried out, but for the note of the path that it opens.
pub(crate) fn carry_out<D: Disk>(
    alloc: Global,
    base: &Base,
    store: &mut Store<D>,
    files: &Files,
    own: &mut OpenFiles,
    message: FromEditor,
) -> Result<Done, AllocError>
    requires live { IsTrue store.old.live }
    requires can { CanCarry (shown store.old) files.now own.old (asking.path_to_open base.now message) }
    ensures carries { let s = state_with (shown store.old) base.now own.old in
        IfOk result (Carries (shown store.old) (shown store.new) files.now base.now own.old own.new (or_refusal s (on_message s 0 message))) }
    ensures live { OnOk result (IsTrue store.new.live) }
    ensures rests { store.new.journal ≡ store.old.journal }
{
    match take_step(alloc, base, files, own, message) {
        Ok(step) => {
            let done = make_step(alloc, store, own, step)?;
            Ok(done)
        }
        Err(Stop::Refused(refusal)) => {
            let done = refused(alloc, refusal)?;
            Ok(done)
        }
        Err(Stop::Memory) => Err(AllocError),
    }
}

/// That an editor has opened a path is noted.
pub(crate) fn note_opening<D: Disk>(
    alloc: Global,
    store: &mut Store<D>,
    opens: &Option<SharedPath>,
) -> Result<(), AllocError>
    requires live { IsTrue store.old.live }
    ensures noted { OnOk result (shown store.new ≡ noted opens.now (shown store.old)) }
    ensures live { OnOk result (IsTrue store.new.live) }
    ensures rests { store.new.journal ≡ store.old.journal }
{
    a_store_shows_what_its_daemon_holds::<D>();
    match opens {
        Some(path) => store.note(alloc, path, Note::Open),
        None => Ok(()),
    }
}
