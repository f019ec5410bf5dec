//! What holds of whole worlds that a program keeps. Each function has an empty body, and its contract is the law.
ghost use Rattle.kept_world.specs.Laws.{BeginningsAreAlike, MovesAreAlike, PossibleAlike};

/// Before the first move both worlds are empty.
pub fn beginnings_are_alike()
    ensures { BeginningsAreAlike }
{}

/// A move does in the plain machine what it does in the world that a program keeps, and prints the same.
pub fn moves_are_alike()
    ensures { MovesAreAlike }
{}

/// A move is possible in the plain machine just where it is possible in the world that a program keeps.
pub fn moves_are_possible_alike()
    ensures { PossibleAlike }
{}
