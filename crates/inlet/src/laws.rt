ghost use Rattle.std.specs.Prelude.{◌≡◌, ℕ, List, [], ◌⊎◌};
ghost use Rattle.inlet.specs.Calls.{Call, Runs, all_given, all_read};
ghost use Rattle.inlet.specs.Messages.{AreMessages, AreMessagesOf, IsMessageOf};
ghost use Rattle.rpc_messages.specs.declared.from_emacs.FromEmacs.{FromEmacs};
ghost use Rattle.packet_framing.specs.Packets.{packets, after_payloads, IsBad, IsUnfinished};

use sexp_reader::reading_is_exact;

/// A payload has one message, and a stream one list of messages.
pub fn messages_are_exact()
    ensures payload { (payload : List ℕ) → (a b : FromEmacs) → IsMessageOf payload a → IsMessageOf payload b → a ≡ b }
    ensures stream { (octets : List ℕ) → (a b : List FromEmacs) → AreMessages octets a → AreMessages octets b → a ≡ b }
{
    reading_is_exact();
}

/// However a source cuts a stream into pieces: the messages that a list of calls gave are those of the first packets of all octets
/// read, and what is kept then holds the other packets. Where no whole packet is kept, the calls gave the messages of the stream.
pub fn calls_take_the_stream()
    ensures first { (calls : List Call) (last : List ℕ) → Runs [] calls last
        → (payloads : List (List ℕ)) × AreMessagesOf payloads (all_given calls) × (packets (all_read calls) ≡ after_payloads payloads (packets last)) }
    ensures all { (calls : List Call) (last : List ℕ) → Runs [] calls last → (IsUnfinished last ⊎ IsBad last)
        → AreMessages (all_read calls) (all_given calls) × ((packets (all_read calls)).rest ≡ last) }
{}
