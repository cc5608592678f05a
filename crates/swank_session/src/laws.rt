//! What the messages of a stream are, as the clause of a function that does nothing.
ghost use Rattle.std.specs.Prelude.{ℕ, List};
ghost use Rattle.inlet.specs.Messages.{AreMessages};
ghost use Rattle.session_model.specs.Legal.{AllMayArrive};
ghost use Rattle.swank_session.specs.Stream.{messages};

/// Each payload has the message that its text spells, or one that says what is wrong with it; and each such message may arrive.
pub fn messages_are_of_the_stream()
    ensures are { (octets : List ℕ) → AreMessages octets (messages octets) }
    ensures may { (octets : List ℕ) → AllMayArrive (messages octets) }
{}
