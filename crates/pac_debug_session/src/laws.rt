//! Laws of what a session is, and gives.

ghost use Rattle.pac_debug_session.specs.Laws.{AllIsGiven, EachIsGivenOnce};
ghost use Rattle.pac_debug_session.specs.SessionLaws.{IsSession};

use crate::session::Session;

/// What holds of every session.
pub fn sessions_are_right(session: &Session)
    ensures { IsSession session.now }
{
    session.facts();
}

/// From the first index on, all of a run's outputs are given.
pub fn all_is_given()
    ensures { AllIsGiven }
{}

/// What is given up to an index and from there on is what is given at once.
pub fn each_is_given_once()
    ensures { EachIsGivenOnce }
{}
