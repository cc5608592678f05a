ghost use Rattle.std.specs.Prelude.{◌≡◌, ◌<◌, ◌≤◌, ◌^◌, length, IfSome};
ghost use Rattle.packet_framing.specs.Frames.{header};
ghost use Rattle.packet_framing.specs.Packets.{header_value};

/// The value of six hexadecimal digits of either case, None for other octets.
#[tactic(auto, unfolding(crate::specs::Packets::header_value))]
pub(crate) fn length_in(digits: &[u8]) -> Option<usize>
    requires { length digits.now ≡ 6 }
    ensures value { result ≡ header_value digits.now }
    ensures small { IfSome result (λ n. n < 2 ^ 24) }
{
    let mut octets = [0; 3];
    match hex::decode_to_slice(digits, &mut octets) {
        Ok(()) => Some(octets[0] as usize * 65536 + octets[1] as usize * 256 + octets[2] as usize),
        Err(_) => None,
    }
}

/// The header of a payload of `len` octets: six hexadecimal digits, in upper case.
pub fn header_of(len: u32) -> [u8; 6]
    requires { len ≤ 0xFFFFFF }
    ensures digits { result ≡ header len }
    ensures read { header_value result ≡ Some len }
{
    let octets = [
        (len / 65536) as u8,
        (len / 256 % 256) as u8,
        (len % 256) as u8,
    ];
    let mut digits = [0; 6];
    let _ = hex::encode_to_slice(octets, &mut digits);
    digits.make_ascii_uppercase();
    digits
}
