//! What holds of every daemon's changes and notes. Each function has an empty body, and its contract is the law.
ghost use Rattle.std.specs.Prelude.{◌≡◌, ℕ, List, length, false, Ok, Err, IsTrue};
ghost use Rattle.delta.specs.Cells.{Cells, base_length, IsNormal};
ghost use Rattle.tt_base.specs.declared.ids.Actor.{Actor};
ghost use Rattle.change_codec.specs.Change.{Change};
ghost use Rattle.journal_format.specs.Image.{actor_is_first};
ghost use Rattle.journal_format.specs.declared.records.Note.{Note};
ghost use Rattle.journal_format.specs.declared.records.Note.TheVariants.{Open};
ghost use Rattle.journal_format.specs.declared.records.Record.{Record};
ghost use Rattle.change_graph.specs.Answers.{IsClash};
ghost use Rattle.change_graph.specs.History.{is_held, name_of};
ghost use Rattle.replica_views.specs.Growth.{MayCome, IsGrown};
ghost use Rattle.replica_views.specs.Made as views;
ghost use Rattle.replica_views.specs.Views.{beginning};
ghost use Rattle.replica_store.specs.Records.{AreTaken};
ghost use Rattle.replica_store.specs.Store.{StoreView, IsStore};
ghost use Rattle.replica_store.specs.Calls.{Making, IsMade, IsRemoved, IsNoted, IsCommitted, IsOpened};
ghost use Rattle.daemon_history.specs.Bounds.{IsWithinBounds, IsRemovalWithinBounds};
ghost use Rattle.daemon_history.specs.Holding.{Holding, started, IsHolding, text_at};
ghost use Rattle.daemon_history.specs.Making.{with_change, making, removing, with_noted, opening};
ghost use Rattle.daemon_history.specs.Shown.{shown, ChangesOne};

/// A daemon that is started on records, each of which was taken, holds what they give, and goes on to with a change that may come
/// next and with a note. Its history has grown change by change.
pub fn a_daemon_holds_what_it_recorded()
    ensures started { (given : Actor) (recorded : List Record) → IsTrue (actor_is_first recorded) → AreTaken beginning recorded
        → IsHolding (started given recorded) }
    ensures changes { (h : Holding) (change : Change) → IsHolding h → MayCome h.history change → IsHolding (with_change h change) }
    ensures notes { (h : Holding) (path : List ℕ) (note : Note) → IsHolding h → IsHolding (with_noted h path note) }
    ensures grown { (h : Holding) → IsHolding h → IsGrown h.history }
{}

/// A daemon that is started again on its records holds what it held.
pub fn a_restart_loses_nothing()
    ensures { (h : Holding) (given : Actor) → IsHolding h → started given h.recorded ≡ h }
{}

/// A change that is made for a delta of the text at a path changes that text by it, and nothing else; all that was held still is.
pub fn a_made_change_changes_one_text()
    ensures { (h after : Holding) (path : List ℕ) (d : Cells) → IsHolding h → making h path d ≡ Ok after
        → MayCome h.history (views.made h.history h.actor path d) → base_length d ≡ length (text_at h path) → IsNormal d
        → ChangesOne h path d after }
{}

/// Within bounds that every machine sets, a change that a daemon makes for a delta of the text at a path may come next, unless one is
/// held under its name: it has an encoding, and none of its operations is refused. So may the change that removes the file there.
pub fn own_changes_may_come()
    ensures made { (h : Holding) (path : List ℕ) (d : Cells) → IsHolding h → IsWithinBounds h path d → base_length d ≡ length (text_at h path)
        → is_held h.history (name_of (views.made h.history h.actor path d)) ≡ false → MayCome h.history (views.made h.history h.actor path d) }
    ensures removed { (h : Holding) (path : List ℕ) → IsHolding h → IsRemovalWithinBounds h path
        → is_held h.history (name_of (views.removed h.history h.actor path)) ≡ false → MayCome h.history (views.removed h.history h.actor path) }
{}

/// A store does to what its daemon holds what the definitions say: it makes, removes and notes it, or refuses with the clash. A
/// commit changes nothing of it, and a store that is opened on records holds what a daemon does that is started on them.
pub fn a_store_shows_what_its_daemon_holds<D>()
    ensures holds { (store : StoreView D) → IsStore store → IsHolding (shown store) }
    ensures makes { (old new : StoreView D) (path : List ℕ) (d : Cells) (answer : Making) → IsMade old path d new answer
        → making (shown old) path d ≡ Ok (shown new) }
    ensures clashes { (old : StoreView D) (path : List ℕ) (d : Cells) (held given : List ℕ)
        → IsClash old.history (views.made old.history old.actor path d) held given
        → making (shown old) path d ≡ Err (record { held = held; given = given }) }
    ensures removes { (old new : StoreView D) (path : List ℕ) (answer : Making) → IsRemoved old path new answer
        → removing (shown old) path ≡ Ok (shown new) }
    ensures removal_clashes { (old : StoreView D) (path : List ℕ) (held given : List ℕ)
        → IsClash old.history (views.removed old.history old.actor path) held given
        → removing (shown old) path ≡ Err (record { held = held; given = given }) }
    ensures opens { (old new : StoreView D) (path : List ℕ) → IsNoted old path Open new → opening (shown old) path ≡ shown new }
    ensures commits { (old new : StoreView D) → IsCommitted old new → shown new ≡ shown old }
    ensures started { (store : StoreView D) (recorded : List Record) (given : Actor) → IsOpened recorded given store
        → shown store ≡ started given recorded }
{}
