// A call record: sixteen bytes, little endian.
ghost use Rattle.std.specs.Prelude.{◌≡◌};
ghost use Rattle.spec_calls.specs.Calls.{call_of};

use spec_calls::call::Call;

#[tactic(auto, unfolding(spec_calls::specs::Calls::call_of))]
// The call that sixteen bytes are.
pub fn call_of(bytes: [u8; 16]) -> Call
    ensures { result ≡ call_of bytes }
{
    Call {
        kind: bytes[0],
        a: bytes[1],
        b: u16::from_le_bytes([bytes[2], bytes[3]]),
        c: u32::from_le_bytes([bytes[4], bytes[5], bytes[6], bytes[7]]),
        d: u32::from_le_bytes([bytes[8], bytes[9], bytes[10], bytes[11]]),
        e: u32::from_le_bytes([bytes[12], bytes[13], bytes[14], bytes[15]]),
    }
}
