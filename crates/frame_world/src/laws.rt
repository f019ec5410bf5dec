//! What holds of each editor that a program keeps, in bodies and frames. Each function has an empty body, and its contract
//! is the law.
ghost use Rattle.frame_world.specs.Laws.{RequestsAreRead, ChangesAreRead, OwnStepsAreAlike, HandlingsAreAlike, TellingsAreAlike, OutcomesAreOneChange, ConnectionsAreApart, DeliveriesAreAlike};

/// What an editor of a file sends is read by its daemon as what it asks, and names that file.
pub fn requests_are_read()
    ensures requests { RequestsAreRead }
    ensures changes { ChangesAreRead }
{}

/// A frame that comes to an editor does what its mark does in the plain machine, and the same line is printed.
pub fn deliveries_are_alike()
    ensures { DeliveriesAreAlike }
{}

/// The first body that comes from an editor to its daemon does what its message does in the plain machine: the daemon comes to
/// the same outcome, and what it sends on the connection is what the editor is sent there.
pub fn handlings_are_alike()
    ensures { HandlingsAreAlike }
{}

/// What an editor does itself leaves it tied to what it is in the machine with counts.
pub fn own_steps_are_alike()
    ensures { OwnStepsAreAlike }
{}

/// An editor is told of what comes on another connection as in the machine with counts.
pub fn tellings_are_alike()
    ensures tellings { TellingsAreAlike }
    ensures changes { OutcomesAreOneChange }
{}

/// A connection of an editor stays as it is where others begin and end.
pub fn connections_are_apart()
    ensures { ConnectionsAreApart }
{}
