//! What is named in a history of changes: changes, the daemons that made them, and what these made.

ghost use Rattle.std.specs.Prelude.{◌≡◌, ◌↔◌, IsTrue};
ghost use Rattle.std.specs.Ordering.{is_lt};
ghost use Rattle.tt_base.specs.Ids.{name_cmp, id_cmp};

/// The name of a change: the SHA-256 digest of its encoding (FIPS 180-4). Names are ordered by their bytes.
#[derive(Clone, Copy, Debug, PartialEq, Eq, PartialOrd, Ord)]
pub struct Name(pub [u8; 32]);

impl Name {
    /// Whether the name stands before the other one in the order of names.
    pub fn is_before(&self, other: &Name) -> bool
        ensures { result ≡ is_lt (name_cmp self.now other.now) }
    {
        self.cmp(other).is_lt()
    }
}

/// The daemon that makes changes, by a number of its own. Actors are ordered by their bytes.
#[derive(Clone, Copy, Debug, PartialEq, Eq, PartialOrd, Ord)]
pub struct Actor(pub [u8; 16]);

/// What names one object or one character that a change made.
///
/// Ids are ordered by their fields in the order in which these stand here. A change is deeper than
/// all that it depends on, so an id is greater than each that its change could know.
#[derive(Clone, Copy, Debug, PartialEq, Eq, PartialOrd, Ord)]
pub struct ElemId {
    /// The depth of the change in the graph of changes, from 1.
    pub depth: u64,
    /// The daemon that made the change.
    pub actor: Actor,
    /// The name of the change.
    pub name: Name,
    /// The place among what the change makes, from 0.
    pub index: u64,
}

impl ElemId {
    /// Whether the id stands before the other one in the order of ids.
    pub fn is_before(&self, other: &ElemId) -> bool
        ensures { result ≡ is_lt (id_cmp self.now other.now) }
    {
        self.cmp(other).is_lt()
    }
    /// Whether the two are one id.
    pub fn equals(&self, other: &ElemId) -> bool
        ensures { IsTrue result ↔ (self.now ≡ other.now) }
    {
        self.cmp(other).is_eq()
    }
}
