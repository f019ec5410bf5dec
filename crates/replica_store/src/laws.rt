//! What holds of every store. Each function has an empty body, and its contract is the law.
ghost use Rattle.std.specs.Prelude.{◌≡◌, ◌⊎◌, ◌++◌, List, IsTrue};
ghost use Rattle.tt_base.specs.declared.ids.Actor.{Actor};
ghost use Rattle.change_codec.specs.Change.{Change};
ghost use Rattle.change_codec.specs.Encoding.{change_format};
ghost use Rattle.change_codec.specs.WellFormed.{IsWellFormed};
ghost use Rattle.change_graph.specs.History.{History};
ghost use Rattle.change_journal.specs.Journal.{IsBeforeOrAfter};
ghost use Rattle.journal_format.specs.Image.{actor_is_first, StandsFor};
ghost use Rattle.journal_format.specs.declared.records.Note.{Note};
ghost use Rattle.journal_format.specs.declared.records.Record.{Record};
ghost use Rattle.replica_views.specs.Growth.{MayCome, IsGrown};
ghost use Rattle.replica_views.specs.Views.{beginning};
ghost use Rattle.replica_store.specs.Records.{Notes, history_from, notes_from, AreTaken};
ghost use Rattle.replica_store.specs.Store.{StoreView, all_records, IsStore};
ghost use Rattle.replica_store.specs.Calls.{with_staged, with_noted, CanMake, IsMade, made_answer, IsCommitted, IsOpened};
ghost use Rattle.replica_store.specs.Disk.{OpensOn, Shows};
ghost use Rattle.delta.specs.Cells.{Cells, IsNormal};
ghost use Rattle.replica_views.specs.Made.{made};
ghost use Rattle.std.specs.Prelude.{ℕ};

use outside::Disk;

/// Records behind others add to the history and the notes that those give.
pub fn records_add_to_others()
    ensures history { (history : History) (first others : List Record)
        → history_from history (first ++ others) ≡ history_from (history_from history first) others }
    ensures notes { (notes : Notes) (first others : List Record)
        → notes_from notes (first ++ others) ≡ notes_from (notes_from notes first) others }
{}

/// Where each change of the records was taken, their history has grown change by change.
pub fn taken_records_give_a_grown_history()
    ensures { (recorded : List Record) → AreTaken beginning recorded → IsGrown (history_from beginning recorded) }
{}

/// A store over records, each of which was taken, is a store: its history and notes are those of its records.
pub fn an_opened_store_is_one<D>()
    ensures { (recorded : List Record) (given : Actor) (store : StoreView D) → IsTrue (actor_is_first recorded)
        → AreTaken beginning recorded → IsTrue store.journal.live → IsOpened recorded given store → IsStore store }
{}

/// A store stays one when a change that may come next is staged, when a note is, and when what is staged is written.
pub fn a_store_goes_on<D>()
    ensures changes { (old : StoreView D) (change : Change) → IsStore old → MayCome old.history change
        → IsStore (with_staged old change) }
    ensures notes { (old : StoreView D) (path : List ℕ) (note : Note) → IsStore old → IsStore (with_noted old path note) }
    ensures commits { (old new : StoreView D) → IsStore old → IsCommitted old new → IsStore new }
{}

/// A store that is opened on all the records of another, as those that a crash leaves behind a commit, has its history and
/// its notes.
pub fn a_reopened_store_is_the_same<D>()
    ensures history { (store again : StoreView D) (recorded : List Record) (given : Actor) → IsStore store
        → recorded ≡ all_records store → IsOpened recorded given again → again.history ≡ store.history }
    ensures notes { (store again : StoreView D) (recorded : List Record) (given : Actor) → IsStore store
        → recorded ≡ all_records store → IsOpened recorded given again → again.notes ≡ store.notes }
{}

/// A store shows its records, held and staged. Whatever a crash leaves at a moment of a commit is opened as a store that shows the
/// records without what was staged, or with all of it, and behind the commit as one that shows all of them.
pub fn a_commit_is_kept_whole_or_not_at_all<D: Disk>()
    ensures now { (store : StoreView D) → IsStore store → Shows store (all_records store) }
    ensures meanwhile { (store again : StoreView D) (old new : D) (given : Actor) → (D.meaning old).told
        → IsBeforeOrAfter store.journal.records store.staged (D.meaning old).seen → OpensOn (D.meaning old) (D.meaning new) given again
        → Shows again store.journal.records ⊎ Shows again (all_records store) }
    ensures behind { (again : StoreView D) (old new : D) (given : Actor) (recorded : List Record) → (D.meaning old).told
        → StandsFor (D.meaning old).seen recorded → OpensOn (D.meaning old) (D.meaning new) given again → Shows again recorded }
{}

/// What a store makes for a delta of the text at a path is a change of its own with that delta as its one effect, and with the
/// change the store is one again.
pub fn a_store_makes_what_it_is_asked_for<D>()
    ensures made { (old : StoreView D) (path : List ℕ) (d : Cells) → IsStore old → CanMake old path d → IsNormal d
        → MayCome old.history (made old.history old.actor path d)
        → IsMade old path d (with_staged old (made old.history old.actor path d)) (made_answer old path d) }
    ensures grown { (store : StoreView D) → IsStore store → IsGrown store.history }
{}

/// A change that is well formed has an encoding: an actor of 16 bytes, names of 32 that rise, paths, texts and counts that are not
/// empty, and numbers that fit their fields are all that an encoding asks for. So this is what a store has to know of what it makes.
pub fn well_formed_changes_have_encodings()
    ensures { (change : Change) → IsWellFormed change → change_format.Fits change }
{}
