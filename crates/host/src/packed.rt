// A call record as a host's 22 bytes, both ways; and what the entries share: the word of a refusal, and a test of flags.
ghost use Rattle.std.specs.Prelude.{◌≡◌, Some, None, cond, nat_le, length};
ghost use Rattle.std.specs.List.{list_all};
ghost use Rattle.std.proofs.lemmas.List.Edits.{sets};
ghost use Rattle.host.specs.Entries.{word};
ghost use Rattle.host.specs.Packing.{packed, state_is, path_is, is_record, held};

use callcontrol::call::{Call, Path, State};
use records::fields::{long_at, word_at};

// A result is answer * ANSWER + place * PLACE + count, so that ANSWER alone is answer 1.
pub const ANSWER: u32 = 16777216;

pub const PLACE: u32 = 65536;

// The bytes of a record, and the greatest number of a state, of a path and of a flag.
pub const BYTES: usize = 22;

const STATE_MOST: u8 = 5;

const PATH_MOST: u8 = 2;

pub const FLAG_MOST: u8 = 1;

// The result of a refusal by its number, with the place that comes with it.
pub fn refused(number: u8, place: u8) -> u32
    ensures { result ≡ word number place 0 }
{
    number as u32 * ANSWER + place as u32 * PLACE
}

// No TryFrom, here and below: `held` gives a call for any 22 bytes, and which bytes are a record is `is_record`'s.
#[tactic(auto, using(crate::proofs::Packing::last_state))]
fn state_is(n: u8) -> State
    ensures { result ≡ state_is n }
{
    match n {
        0 => State::Idle,
        1 => State::MoCallSetup,
        2 => State::MtCallSetup,
        3 => State::CallActive,
        4 => State::Wait,
        _ => State::CallDisconnect,
    }
}

// 2 is the last that a record has; what is above it is Up.
#[tactic(auto, using(crate::proofs::Packing::last_path))]
fn path_is(n: u8) -> Path
    ensures { result ≡ path_is n }
{
    match n {
        1 => Path::Broken,
        2 => Path::Restoring,
        _ => Path::Up,
    }
}

// Whether each of some bytes is at most a number.
pub fn all_at_most(s: &[u8], most: u8) -> bool
    ensures { result ≡ list_all (λ byte. nat_le byte most) s.now }
{
    s.iter().all(|byte| *byte <= most)
}

// Whether some bytes are a record.
pub fn is_record(s: &[u8]) -> bool
    ensures { result ≡ is_record s.now }
{
    if s.len() != BYTES || s[0] > STATE_MOST || s[10] > PATH_MOST {
        return false;
    }
    all_at_most(&s[14..21], FLAG_MOST)
}

// The call that a record's bytes hold.
pub fn held(s: &[u8]) -> Call
    requires { length s.now ≡ 22 }
    ensures { result ≡ held s.now }
{
    Call {
        state: state_is(s[0]),
        id: word_at(s, 1),
        address: long_at(s, 3),
        mode: s[7],
        asked: s[8],
        sent: s[9],
        path: path_is(s[10]),
        plane: s[11],
        kept: s[12],
        code: s[13],
        slots: s[21],
        timers: std::array::from_fn(|i| s[14 + i] == 1),
    }
}

// The same, none where the bytes are no record.
pub fn unpacked(s: &[u8]) -> Option<Call>
    ensures { result ≡ cond (is_record s.now) (Some (held s.now)) None }
{
    if is_record(s) { Some(held(s)) } else { None }
}

// A call as a record's bytes: which call it is, how it stands, the timers, and the slots.
fn packed(call: Call) -> [u8; BYTES]
    ensures { result ≡ packed call }
{
    let [i0, i1] = call.id.to_le_bytes();
    let [a0, a1, a2, a3] = call.address.to_le_bytes();
    let [t301, t302, t303, t306, t308, t310, t311] = call.timers.map(u8::from);
    [
        u8::from(call.state),
        i0,
        i1,
        a0,
        a1,
        a2,
        a3,
        call.mode,
        call.asked,
        call.sent,
        u8::from(call.path),
        call.plane,
        call.kept,
        call.code,
        t301,
        t302,
        t303,
        t306,
        t308,
        t310,
        t311,
        call.slots,
    ]
}

// A call into a record's bytes.
pub fn pack(call: Call, s: &mut [u8])
    requires { length s.old ≡ 22 }
    ensures { s.new ≡ sets s.old 0 (packed call) }
{
    s.copy_from_slice(&packed(call));
}
