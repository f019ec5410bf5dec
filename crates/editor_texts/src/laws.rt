//! What holds of all that editors give. Each function has an empty body, and its contract is the law.
ghost use Rattle.std.specs.Prelude.{◌≡◌, ℕ, true, List, Ok};
ghost use Rattle.std.specs.List.{AllByRecursion};
ghost use Rattle.std.specs.Str.{all_scalars};
ghost use Rattle.tt_base.specs.declared.edits.TextEdit.{TextEdit};
ghost use Rattle.delta.specs.Cells.{Cells, IsNormal, inserting};
ghost use Rattle.text_position.specs.Edits.{delta_of_edits};
ghost use Rattle.editor_bridge.specs.Link.{Link, carried_edit};
ghost use Rattle.file_uri.specs.Base.{BaseView};
ghost use Rattle.file_uri.specs.PathOf.{path_of};
ghost use Rattle.rpc_message.specs.Messages.{message_of};
ghost use Rattle.rpc_message.specs.declared.messages.Incoming.{Incoming};
ghost use Rattle.change_codec.specs.WellFormed.{IsPath};
ghost use Rattle.daemon_history.specs.Bounds.{InsertsScalars};
ghost use Rattle.editor_texts.specs.Scalars.{ReplacesByScalars, SaysScalars};

/// Each text of a message is of Unicode scalar values, whatever its body is.
pub fn messages_say_scalars()
    ensures { (body : List ℕ) (incoming : Incoming) → message_of body ≡ Ok incoming → SaysScalars incoming.message }
{}

/// What an open and an edit make of a text inserts Unicode scalar values, also once it is carried past what the editor had not shown.
pub fn edits_insert_scalars()
    ensures content { (content : List ℕ) → all_scalars content ≡ true → InsertsScalars (inserting content) }
    ensures edits { (text : List ℕ) (edits : List TextEdit) (d : Cells) → AllByRecursion ReplacesByScalars edits
        → delta_of_edits text edits ≡ Ok d → InsertsScalars d }
    ensures carried { (seen : ℕ) (d : Cells) (link : Link) → InsertsScalars d → InsertsScalars (carried_edit seen d link) }
{}

/// So does it have the normal form that a change is made for.
pub fn edits_are_normal()
    ensures content { (content : List ℕ) → IsNormal (inserting content) }
    ensures edits { (text : List ℕ) (edits : List TextEdit) (d : Cells) → delta_of_edits text edits ≡ Ok d → IsNormal d }
    ensures carried { (seen : ℕ) (d : Cells) (link : Link) → IsNormal d → IsNormal (carried_edit seen d link) }
{}

/// The path that a URI names has an encoding in changes.
pub fn uris_name_shared_paths()
    ensures { (base : BaseView) (uri path : List ℕ) → path_of base uri ≡ Ok path → IsPath path }
{}
