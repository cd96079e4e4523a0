//! Laws of whole connections.

ghost use Rattle.line.specs.Whole.{BeginLaw, CallLaw, CutLaw, EndLaw, LeaveLaw, NothingLaw, StopLaw, TurnLaw};

/// The calls that were given are those of the bytes that were read, in order, with the words from the first on. What was written
/// and is to be are the frames of the answers in order (`Account`).
///
/// So it is at first, after each call that was answered, where nothing came, and where more was written. Between a call and
/// its reply that is so of all before the call (`Owes`).
///
/// Where `next_call` or `reply` ended the connection, or it is given up, a beginning of that was written. It is all where the reader
/// ended or failed, or a frame was too long (`Lived`).
pub fn accounts()
    ensures begins { BeginLaw }
    ensures call { CallLaw }
    ensures turn { TurnLaw }
    ensures nothing { NothingLaw }
    ensures ended { EndLaw }
    ensures cut { CutLaw }
    ensures stopped { StopLaw }
    ensures left { LeaveLaw }
{}
