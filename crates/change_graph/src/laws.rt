//! What holds of adding. The function has an empty body, and its contract is the law.
ghost use Rattle.std.specs.Prelude.{◌≡◌, Result};
ghost use Rattle.change_codec.specs.Change.{Change};
ghost use Rattle.change_graph.specs.declared.faults.AddNote.{AddNote};
ghost use Rattle.change_graph.specs.declared.faults.GraphFault.{GraphFault};
ghost use Rattle.change_graph.specs.History.{History};
ghost use Rattle.change_graph.specs.Adding.{IsAnswer};

/// Of a history and a change one answer of adding is right at most, and one history behind it, want of memory apart.
pub fn adding_comes_to_one_answer()
    ensures { (old new other_new : History) (change : Change) (answer other : Result AddNote GraphFault)
        → IsAnswer old change new answer → IsAnswer old change other_new other → (new ≡ other_new) × (answer ≡ other) }
{}
