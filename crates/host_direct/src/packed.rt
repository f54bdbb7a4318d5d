// A direct mode call as a host's 7 bytes, both ways.
ghost use Rattle.std.specs.Prelude.{◌≡◌};
ghost use Rattle.host_direct.specs.Packing.{packed, unpacked, as_call, as_flag};

use direct::call::{Call, State};

// A byte that is a flag.
fn flag_of(byte: u8) -> Option<bool>
    ensures { result ≡ as_flag byte }
{
    match byte {
        0 => Some(false),
        1 => Some(true),
        _ => None,
    }
}

// The call that some bytes hold; none where they are no record.
pub fn unpack(bytes: &[u8]) -> Option<Call>
    ensures { as_call result ≡ unpacked bytes.now }
{
    let &[state, target, lowest, limit, used, dt303, dt311] = bytes else {
        return None;
    };
    Some(Call {
        state: State::try_from(state).ok()?,
        target,
        lowest,
        limit,
        used,
        dt303: flag_of(dt303)?,
        dt311: flag_of(dt311)?,
    })
}

// The bytes of a call.
#[tactic(auto, unfolding(crate::specs::Packing::packed))]
pub fn pack(call: Call) -> [u8; 7]
    ensures { result ≡ packed call }
{
    [
        u8::from(call.state),
        call.target,
        call.lowest,
        call.limit,
        call.used,
        call.dt303 as u8,
        call.dt311 as u8,
    ]
}
