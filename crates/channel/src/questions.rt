// A question, a decision, a call's end: an answer to the lower layers goes out, or the question waits, or a refusal changes nothing.
ghost use Rattle.std.specs.Prelude.{◌≡◌, ◌∷◌, [], ◌<◌, List};
ghost use Rattle.callcontrol.specs.Writing.{Laid};
ghost use Rattle.channel.specs.Questions.{channel_number, step_number, verdict_number, as_asked, as_decision, asked_of, decision_of, carried, as_outcome, taken, ask_of, asked_by, pdu_of, decide_of, rejects_in, ended_of};

use crate::rooms::{Room, Rooms, Wait};
use callcontrol::call::Call;
use callcontrol::step::{Refusal, Stepped};
use records::messages::{Message, message_size};
use records::record::Record;

// Why nothing is done: the rooms stay as they are, and so does the lent buffer.
#[derive(Clone, Copy, Debug, PartialEq, Eq)]
pub enum ChannelRefusal {
    // The rooms are not sound.
    NotSound = 1,
    // The call, or the number for what is asked or decided, is out of range.
    BadField = 4,
    // What is to be written is longer than the lent buffer.
    NoRoom = 7,
    // A question of this number waits already.
    NumberWaits = 50,
    // It would have to wait, and four do.
    RoomsFull = 51,
    // No waiting question of this number waits for this decision.
    NoneWaits = 52,
    // After 51: a group that we are calling, with another service or U-SETUP reported sent. Open with the client.
    OwnGroup = 53,
}

impl ChannelRefusal {
    // As the host knows it, 0 being for what is taken.
    pub fn number(self) -> u8
        ensures value { result ≡ channel_number self }
        ensures lower_bound { 0 < result }
        ensures upper_bound { result < 54 }
    {
        self as u8
    }
}

// What was taken: the count of bytes written, and the rooms then.
#[derive(Clone, Copy, Debug, PartialEq, Eq)]
pub struct Answered {
    pub count: usize,
    pub rooms: Rooms,
}

// Whether the lower layers are to follow the channel allocation.
#[derive(Clone, Copy, Debug, PartialEq, Eq)]
pub enum Verdict {
    Accept = 0,
    Reject = 1,
    Ignore = 2,
}

// What a question gets: a verdict at once, a room to wait in, or neither, the rule being open.
#[derive(Clone, Copy, Debug, PartialEq, Eq)]
enum Rule {
    Now(Verdict),
    Waits(Wait),
    Open,
}

#[tactic(auto, unfolding(crate::specs::Questions::asked_of))]
fn rule_of(asked: u8) -> Option<Rule>
    ensures { as_asked result ≡ asked_of asked }
{
    match asked {
        // Individually addressed: the step took the PDU, or refused it (14.5.3.2.2).
        0 => Some(Rule::Now(Verdict::Accept)),
        1 => Some(Rule::Now(Verdict::Reject)),
        // Group D-SETUP to a group that we aren't calling.
        2 => Some(Rule::Waits(Wait::User)),
        // Group D-SETUP to a group that we are calling: U-SETUP not reported sent and the service compatible; otherwise.
        3 => Some(Rule::Waits(Wait::Cancel)),
        4 => Some(Rule::Open),
        // A group addressed PDU of an ongoing call: obeyed; not obeyed, D-TX GRANTED or D-TX INTERRUPT while we transmit; not obeyed otherwise.
        5 => Some(Rule::Now(Verdict::Accept)),
        6 => Some(Rule::Now(Verdict::Ignore)),
        7 => Some(Rule::Now(Verdict::Reject)),
        _ => None,
    }
}

// What a decision is for, and the verdict that it gives.
#[derive(Clone, Copy, Debug, PartialEq, Eq)]
struct Decided {
    wait: Wait,
    verdict: Verdict,
}

#[tactic(auto, unfolding(crate::specs::Questions::decision_of))]
fn decided_by(decision: u8) -> Option<Decided>
    ensures { as_decision result ≡ decision_of decision }
{
    let (wait, verdict) = match decision {
        // The user's SETUP response and RELEASE request, and T330's expiry (H).
        0 => (Wait::User, Verdict::Accept),
        1 => (Wait::User, Verdict::Reject),
        2 => (Wait::User, Verdict::Reject),
        // The cancel worked, or failed.
        3 => (Wait::Cancel, Verdict::Accept),
        4 => (Wait::Cancel, Verdict::Ignore),
        _ => return None,
    };
    Some(Decided { wait, verdict })
}

// The answer to the question of a number.
fn answer(number: u16, verdict: Verdict) -> Message
    ensures { result ≡ Message.ChannelAnswer number (verdict_number verdict) }
{
    Message::ChannelAnswer {
        number,
        verdict: verdict as u8,
    }
}

// A message into the lent buffer, and then the rooms that go with it: counted first, and stored only where it fits.
#[tactic(auto, using(crate::proofs::Asking::too_long, crate::proofs::Asking::one_size))]
fn carry(next: Rooms, message: Message, buffer: &mut [u8]) -> Result<Answered, ChannelRefusal>
    ensures { (rooms : List Room) → as_outcome rooms result buffer.new ≡ carried rooms next.rooms (message ∷ []) buffer.old }
{
    if buffer.len() < message_size(message) {
        return Err(ChannelRefusal::NoRoom);
    }
    Ok(Answered {
        count: message.lay(buffer, 0),
        rooms: next,
    })
}

// A question that waits takes the first free room. One that waits for the cancel asks for it first.
#[tactic(auto, using(crate::proofs::First::firsts, crate::proofs::Asking::silent, crate::proofs::Asking::out_first), unfolding(crate::specs::Questions::taken))]
fn take_room(
    rooms: Rooms,
    number: u16,
    call: u16,
    wait: Wait,
    buffer: &mut [u8],
) -> Result<Answered, ChannelRefusal>
    ensures { as_outcome rooms.rooms result buffer.new ≡ taken rooms.rooms number call wait buffer.old }
{
    let free = rooms.first_free().ok_or(ChannelRefusal::RoomsFull)?;
    let mut next = rooms;
    next.rooms[free] = Room { wait, number, call };
    if wait == Wait::Cancel {
        return carry(next, Message::Cancel, buffer);
    }
    Ok(Answered {
        count: 0,
        rooms: next,
    })
}

// The lower layers ask whether to follow a channel allocation that came with a PDU of a call. `asked` is the host's number, of which a wrong one
// is refused after the rooms and the call.
#[tactic(auto, using(crate::proofs::First::firsts), unfolding(crate::specs::Questions::ask_of))]
pub fn ask(
    rooms: Rooms,
    number: u16,
    call: u16,
    asked: u8,
    buffer: &mut [u8],
) -> Result<Answered, ChannelRefusal>
    ensures { as_outcome rooms.rooms result buffer.new ≡ ask_of rooms.rooms number call asked buffer.old }
{
    if !rooms.are_sound() {
        return Err(ChannelRefusal::NotSound);
    }
    if call > Call::ID_MOST {
        return Err(ChannelRefusal::BadField);
    }
    let rule = rule_of(asked).ok_or(ChannelRefusal::BadField)?;
    if rooms.number_waits(number) {
        return Err(ChannelRefusal::NumberWaits);
    }
    match rule {
        Rule::Now(verdict) => carry(rooms, answer(number, verdict), buffer),
        Rule::Waits(wait) => take_room(rooms, number, call, wait, buffer),
        Rule::Open => Err(ChannelRefusal::OwnGroup),
    }
}

// What is asked of an individually addressed PDU, by what the step gave for it: a number, as `ask` takes and as `asked_by` of specs/ is.
fn asked_by(stepped: Result<Stepped, Refusal>) -> u8
    ensures { result ≡ asked_by (step_number stepped) }
{
    match stepped {
        Ok(_) => 0,
        Err(_) => 1,
    }
}

// The question on an individually addressed PDU that the step has answered.
#[tactic(auto, unfolding(crate::specs::Questions::pdu_of))]
pub fn ask_pdu(
    rooms: Rooms,
    number: u16,
    call: u16,
    stepped: Result<Stepped, Refusal>,
    buffer: &mut [u8],
) -> Result<Answered, ChannelRefusal>
    ensures { as_outcome rooms.rooms result buffer.new ≡ pdu_of rooms.rooms number call (step_number stepped) buffer.old }
{
    ask(rooms, number, call, asked_by(stepped), buffer)
}

// A decision, by the host's number, comes for the question of a number.
#[tactic(auto, using(crate::proofs::First::firsts), unfolding(crate::specs::Questions::decide_of))]
pub fn decide(
    rooms: Rooms,
    number: u16,
    decision: u8,
    buffer: &mut [u8],
) -> Result<Answered, ChannelRefusal>
    ensures { as_outcome rooms.rooms result buffer.new ≡ decide_of rooms.rooms number decision buffer.old }
{
    if !rooms.are_sound() {
        return Err(ChannelRefusal::NotSound);
    }
    let decided = decided_by(decision).ok_or(ChannelRefusal::BadField)?;
    let at = rooms
        .first_waiting(number, decided.wait)
        .ok_or(ChannelRefusal::NoneWaits)?;
    let mut next = rooms;
    next.rooms[at] = Room::FREE;
    carry(next, answer(number, decided.verdict), buffer)
}

// Rejects the questions of a call, rooms rising, from the buffer's front on, and answers how far.
fn reject(rooms: Rooms, call: u16, buffer: &mut [u8]) -> usize
    ensures { Laid buffer.old 0 (rejects_in call rooms.rooms) result buffer.new }
{
    let mut at = 0;
    for room in rooms.rooms {
        if room.is_of_call(call) {
            at = answer(room.number, Verdict::Reject).lay(buffer, at);
        }
    }
    at
}

// A call has ended: the questions that wait for it are rejected, rooms rising.
#[tactic(auto, using(crate::proofs::Asking::too_long, crate::proofs::Asking::size_rejects_in), unfolding(crate::specs::Questions::ended_of))]
pub fn ended(rooms: Rooms, call: u16, buffer: &mut [u8]) -> Result<Answered, ChannelRefusal>
    ensures { as_outcome rooms.rooms result buffer.new ≡ ended_of rooms.rooms call buffer.old }
{
    if !rooms.are_sound() {
        return Err(ChannelRefusal::NotSound);
    }
    if call > Call::ID_MOST {
        return Err(ChannelRefusal::BadField);
    }
    if buffer.len() < 7 * rooms.of_call(call) {
        return Err(ChannelRefusal::NoRoom);
    }
    Ok(Answered {
        count: reject(rooms, call, buffer),
        rooms: rooms.freed(call),
    })
}
