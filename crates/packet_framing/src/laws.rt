ghost use Rattle.std.specs.Prelude.{◌≡◌, ◌+◌, ◌<◌, ◌≤◌, ℕ, List, ◌∷◌, [], ◌++◌, length, All, ◌⊎◌};
ghost use Rattle.packet_framing.specs.Calls.{Call, Runs, all_fed, all_given};
ghost use Rattle.packet_framing.specs.Frames.{packet_of, frames};
ghost use Rattle.packet_framing.specs.Packets.{packets, first_packet, split_after, after_payloads, IsBad, IsUnfinished};

/// A stream is taken apart packet by packet, from the front; no whole packet stands at the front of the rest.
pub fn packet_by_packet()
    ensures step { (octets : List ℕ) → packets octets ≡ split_after packets octets (first_packet octets) }
    ensures rest { (octets : List ℕ) → first_packet (packets octets).rest ≡ None }
{}

/// Octets that come later change no packet that was whole before, and mend no bad header.
pub fn later_octets()
    ensures packets { (octets more : List ℕ)
        → packets (octets ++ more) ≡ after_payloads (packets octets).payloads (packets ((packets octets).rest ++ more)) }
    ensures bad { (octets more : List ℕ) → IsBad octets → IsBad (octets ++ more) }
    ensures bad_rest { (octets more : List ℕ) → IsBad (packets octets).rest
        → packets (octets ++ more) ≡ record { payloads = (packets octets).payloads; rest = (packets octets).rest ++ more } }
{}

/// How long a packet is, how many octets an unfinished one has at most, and how many stay when later octets complete it: fewer than
/// those.
pub fn lengths()
    ensures whole { (octets payload rest : List ℕ) → first_packet octets ≡ Some (payload, rest)
        → (length payload ≤ 0xFFFFFF) × (length octets ≡ 6 + length payload + length rest) }
    ensures unfinished { (octets : List ℕ) → IsUnfinished octets → length octets < 6 + 0xFFFFFF }
    ensures completed { (octets more payload rest : List ℕ) → first_packet octets ≡ None
        → first_packet (octets ++ more) ≡ Some (payload, rest) → length rest < length more }
{}

/// In whatever order a decoder is fed and asked: what it gave are the first payloads of all that it was fed, and what it keeps holds
/// the others and the rest. Where `next` gives no payload, it gave them all, and what it keeps is the rest.
pub fn any_calls()
    ensures first { (calls : List Call) (last : List ℕ) → Runs [] calls last
        → packets (all_fed calls) ≡ after_payloads (all_given calls) (packets last) }
    ensures all { (calls : List Call) (last : List ℕ) → Runs [] calls last → (IsUnfinished last ⊎ IsBad last)
        → packets (all_fed calls) ≡ record { payloads = all_given calls; rest = last } }
{}

/// Packets that were written are read back as their payloads, whatever follows them.
pub fn frames_are_read()
    ensures { (payloads : List (List ℕ)) (more : List ℕ) → All (λ payload. length payload ≤ 0xFFFFFF) payloads
        → packets (frames payloads ++ more) ≡ after_payloads payloads (packets more) }
{}
