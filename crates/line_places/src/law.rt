//! Laws of what is due to a connection.

ghost use Rattle.line_places.specs.Due.{AnswerLaw, RefuseLaw};

/// What is due to a connection, so that it may be written: after what came out before, the refusals of what is no call, and the reply
/// to the call that is owed one.
pub fn dues()
    ensures refused { RefuseLaw }
    ensures answered { AnswerLaw }
{}
