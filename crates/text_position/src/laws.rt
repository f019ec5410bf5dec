//! What holds of the definitions of positions and edits. Each function has an empty body, and its
//! contract is the law.
ghost use Rattle.text_position.specs.Laws.{ComputedIsPlace, PlaceIsComputed, PlaceHasPosition, PositionComesBack};
ghost use Rattle.text_position.specs.Laws.{DeltaLeadsAsEdits, RefusalTellsFirst, FirstBadIsRefused, DeltaComesBack, EditsAreApart};

/// The place of a position, as it is computed, is the one that the definition says.
pub fn computed_place_is_defined()
    ensures place { ComputedIsPlace }
    ensures computed { PlaceIsComputed }
{}

/// Each place has a position, and a position that has a place is the one of that place.
pub fn places_and_positions_are_inverse()
    ensures place { PlaceHasPosition }
    ensures position { PositionComesBack }
{}

/// The delta of a list of edits makes of a text what the edits make of it one after the other.
pub fn delta_leads_as_edits()
    ensures { DeltaLeadsAsEdits }
{}

/// A list of edits is refused exactly for its first edit that has no range in the text reached.
pub fn first_bad_edit_is_refused()
    ensures first { RefusalTellsFirst }
    ensures refused { FirstBadIsRefused }
{}

/// The edits of a normal delta have that delta, and their ranges stand apart in the text.
pub fn delta_comes_back()
    ensures back { DeltaComesBack }
    ensures apart { EditsAreApart }
{}
