// The rooms of waiting channel questions as a host's 20 bytes, and their five entries. Each returns answer * 2^24 + count.
ghost use Rattle.std.specs.Prelude.{◌≡◌, Some, None, cond, List, [], ℕ, ◌+◌, ◌≤◌, ◌/◌, length, IfOk};
ghost use Rattle.std.proofs.lemmas.List.Edits.{sets};
ghost use Rattle.channel.specs.Questions.{ask_of, pdu_of, decide_of, ended_of, asked_by};
ghost use Rattle.host.specs.Entries.{ANSWER};
ghost use Rattle.host.specs.Channel.{wait_is, packed_room, packed_rooms, is_rooms, held_room, held_rooms, RoomsLeft, rooms_freshened, leaving, on_rooms};

use crate::packed::{ANSWER, all_at_most, refused};
use channel::questions::{Answered, ChannelRefusal, ask, decide, ended};
use channel::rooms::{Room, Rooms, Wait};
use records::fields::word_at;

// The bytes of the rooms, and of each.
const BYTES: usize = 20;

const ROOM: usize = 5;

// The greatest number of what a room waits for.
const WAIT_MOST: u8 = 2;

// 2 is the last that a room has; what is above it is Nobody. No TryFrom: `held_room` gives a room for any five bytes, and which bytes are rooms is `is_rooms`'s.
fn wait_is(n: u8) -> Wait
    ensures { result ≡ wait_is n }
{
    match n {
        1 => Wait::User,
        2 => Wait::Cancel,
        _ => Wait::Nobody,
    }
}

// The room that five bytes hold.
#[tactic(auto, unfolding(crate::specs::Channel::held_room))]
fn held_room(s: &[u8], at: usize) -> Room
    requires { at + 5 ≤ length s.now }
    ensures { result ≡ held_room s.now at }
{
    Room {
        wait: wait_is(s[at]),
        number: word_at(s, at + 1),
        call: word_at(s, at + 3),
    }
}

// The rooms that some bytes hold; none where they are no rooms.
fn held_rooms(s: &[u8]) -> Option<Rooms>
    ensures { result ≡ cond (is_rooms s.now) (Some (record { rooms = held_rooms s.now })) None }
{
    // What each room waits for: a walk by ROOM would be no plainer than the four places.
    if s.len() != BYTES || !all_at_most(&[s[0], s[5], s[10], s[15]], WAIT_MOST) {
        return None;
    }
    Some(Rooms {
        rooms: std::array::from_fn(|k| held_room(s, ROOM * k)),
    })
}

// A room as its five bytes.
#[tactic(auto, unfolding(crate::specs::Channel::packed_room, records::specs::Bytes::bytes))]
fn packed_room(room: Room) -> [u8; ROOM]
    ensures { result ≡ packed_room room }
{
    let [n0, n1] = room.number.to_le_bytes();
    let [c0, c1] = room.call.to_le_bytes();
    [room.wait as u8, n0, n1, c0, c1]
}

// The rooms into their bytes.
fn pack_rooms(rooms: Rooms, s: &mut [u8])
    requires { length s.old ≡ 20 }
    ensures { s.new ≡ sets s.old 0 (packed_rooms rooms.rooms) }
{
    s.copy_from_slice(rooms.rooms.map(packed_room).as_flattened());
}

// The result, and the rooms into their bytes where the answer is 0.
fn leave(answered: Result<Answered, ChannelRefusal>, s: &mut [u8]) -> u32
    requires { (length s.old ≡ 20) × IfOk answered (λ a. a.count ≤ 28) }
    ensures { ◌≡◌ {A = ℕ × List ℕ} (result, s.new) (leaving s.old answered) }
{
    match answered {
        Ok(taken) => {
            pack_rooms(taken.rooms, s);
            taken.count as u32
        }
        Err(refusal) => refused(refusal.number(), 0),
    }
}

// Writes four free rooms; answer 1 where there are not 20 bytes.
pub fn callcontrol_channel_fresh(rooms: &mut [u8]) -> u32
    ensures { ◌≡◌ {A = RoomsLeft} (record { result = result; rooms = rooms.new; out = [] }) (rooms_freshened rooms.old) }
{
    if rooms.len() != BYTES {
        return ANSWER;
    }
    pack_rooms(Rooms::fresh(), rooms);
    BYTES as u32
}

// The lower layers ask whether to follow a channel allocation.
pub fn callcontrol_channel_ask(
    rooms: &mut [u8],
    number: u16,
    call: u16,
    asked: u8,
    out: &mut [u8],
) -> u32
    ensures { ◌≡◌ {A = RoomsLeft} (record { result = result; rooms = rooms.new; out = out.new }) (on_rooms rooms.old out.old (λ held. ask_of held number call asked out.old)) }
{
    let Some(held) = held_rooms(rooms) else {
        return ANSWER;
    };
    leave(ask(held, number, call, asked, out), rooms)
}

// What is asked of an individually addressed PDU, by what the step returned for it: a number, as a host has it.
fn asked_by(returned: u32) -> u8
    ensures { result ≡ asked_by (returned / ANSWER) }
{
    if returned / ANSWER == 0 { 0 } else { 1 }
}

// The question on an individually addressed PDU, with what the step returned for the PDU.
pub fn callcontrol_channel_pdu(
    rooms: &mut [u8],
    number: u16,
    call: u16,
    returned: u32,
    out: &mut [u8],
) -> u32
    ensures { ◌≡◌ {A = RoomsLeft} (record { result = result; rooms = rooms.new; out = out.new }) (on_rooms rooms.old out.old (λ held. pdu_of held number call (returned / ANSWER) out.old)) }
{
    let Some(held) = held_rooms(rooms) else {
        return ANSWER;
    };
    leave(ask(held, number, call, asked_by(returned), out), rooms)
}

// A decision comes for the question of a number.
pub fn callcontrol_channel_decide(
    rooms: &mut [u8],
    number: u16,
    decision: u8,
    out: &mut [u8],
) -> u32
    ensures { ◌≡◌ {A = RoomsLeft} (record { result = result; rooms = rooms.new; out = out.new }) (on_rooms rooms.old out.old (λ held. decide_of held number decision out.old)) }
{
    let Some(held) = held_rooms(rooms) else {
        return ANSWER;
    };
    leave(decide(held, number, decision, out), rooms)
}

// A call has ended.
pub fn callcontrol_channel_ended(rooms: &mut [u8], call: u16, out: &mut [u8]) -> u32
    ensures { ◌≡◌ {A = RoomsLeft} (record { result = result; rooms = rooms.new; out = out.new }) (on_rooms rooms.old out.old (λ held. ended_of held call out.old)) }
{
    let Some(held) = held_rooms(rooms) else {
        return ANSWER;
    };
    leave(ended(held, call, out), rooms)
}
