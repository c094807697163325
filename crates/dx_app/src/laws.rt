//! What holds of what is read.

ghost use Rattle.dx_app.specs.Laws.{EventsAreServed};

/// Each event that a line says is of a node and a slot that are there: so what the definitions say of nodes that are not
/// there comes into no transcript.
pub fn events_are_served()
    ensures { EventsAreServed }
{}
