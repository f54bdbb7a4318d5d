// The step: an event comes in; the next record and the messages go out, or a refusal that changes nothing.
ghost use Rattle.std.specs.Prelude.{◌≡◌, ◌<◌};
ghost use Rattle.callcontrol.specs.Settle.{as_draft};
ghost use Rattle.callcontrol.specs.Step.{answer_number, place_in, named_in, other_call, over_transmission, carried, decided, step_of, as_outcome};
ghost use Rattle.callcontrol.specs.declared.step.Refusal.{Refusal};
ghost use Rattle.callcontrol.specs.declared.call.Call.{Call};

use crate::call::Call;
use crate::draft::Drafted;
use crate::rows::row_for;
use crate::settle::settle;
use crate::writing::{lay_messages, messages_size};
use records::bodies::Unreadable;
use records::events::Event;
use records::record::read;

// Why a step is refused: the first that applies, in the order of the paper's table.
#[derive(Clone, Copy, Debug, PartialEq, Eq)]
pub enum Refusal {
    // 1: the record is not sound.
    NotSound,
    // 2, 3, 9 and 4: the bytes are no event.
    Unreadable(Unreadable),
    // 5: a network event of another call.
    OtherCall,
    // 6: no row for this state.
    NoRow,
    // 7, after 8: the messages are longer than the lent buffer.
    NoRoom,
    // 8: D-INFO over own transmission.
    OwnTransmission,
}

impl Refusal {
    // The paper's number.
    pub fn number(self) -> u8
        ensures value { result ≡ answer_number self }
        ensures upper_bound { result < 10 }
    {
        match self {
            Refusal::NotSound => 1,
            Refusal::Unreadable(unreadable) => unreadable.number(),
            Refusal::OtherCall => 5,
            Refusal::NoRow => 6,
            Refusal::NoRoom => 7,
            Refusal::OwnTransmission => 8,
        }
    }

    // The place that comes with 4; 0 with every other.
    pub fn place(self) -> u8
        ensures { result ≡ place_in self }
    {
        match self {
            Refusal::Unreadable(unreadable) => unreadable.place(),
            _ => 0,
        }
    }
}

impl From<Unreadable> for Refusal {
    ghost from_gives = { λ unreadable refusal. refusal ≡ Refusal.Unreadable unreadable };

    fn from(unreadable: Unreadable) -> Refusal {
        Refusal::Unreadable(unreadable)
    }
}

// What a step that is taken gives: the count of bytes written and the next record.
#[derive(Clone, Copy, Debug, PartialEq, Eq)]
pub struct Stepped {
    pub count: usize,
    pub call: Call,
}

// The identifier of a network event but D-SETUP.
fn named_in(event: Event) -> Option<u16>
    ensures { result ≡ named_in event }
{
    match event {
        Event::DCallProceeding { id }
        | Event::DAlert { id }
        | Event::DConnect { id, .. }
        | Event::DConnectAcknowledge { id, .. }
        | Event::DInfo { id, .. }
        | Event::DTxGranted { id, .. }
        | Event::DTxCeased { id }
        | Event::DTxInterrupt { id, .. }
        | Event::DTxWait { id }
        | Event::DTxContinue { id, .. }
        | Event::DCallRestore { id, .. }
        | Event::DDisconnect { id }
        | Event::DRelease { id } => Some(id),
        _ => None,
    }
}

// An identifier that differs from the held one; if 0 is held outside IDLE, every one agrees.
#[tactic(auto, unfolding(crate::specs::Step::other_call))]
fn other_call(call: Call, event: Event) -> bool
    ensures { result ≡ other_call call event }
{
    let Some(id) = named_in(event) else {
        return false;
    };
    (id != call.id) & ((call.id != 0) | call.is_idle())
}

// D-INFO while the set transmits: a change of service would clip the speaker's words.
fn over_transmission(call: Call, event: Event) -> bool
    ensures { result ≡ over_transmission call event }
{
    matches!(event, Event::DInfo { .. }) & call.transmits()
}

// A row's messages into the lent buffer: counted first, and stored only where they fit.
fn carry(draft: Drafted, buffer: &mut [u8]) -> Result<Stepped, Refusal>
    ensures { (call : Call) → as_outcome call result buffer.new ≡ carried call (as_draft draft) buffer.old }
{
    let count = messages_size(draft);
    if buffer.len() < count {
        return Err(Refusal::NoRoom);
    }
    lay_messages(draft, buffer);
    let call = draft.call;
    Ok(Stepped { count, call })
}

// An event that was read, of a record that the caller has found sound.
#[tactic(auto, using(crate::proofs::Carried::by_other, crate::proofs::Carried::by_none, crate::proofs::Carried::by_transmission, crate::proofs::Carried::by_orders))]
pub fn decide(call: Call, event: Event, buffer: &mut [u8]) -> Result<Stepped, Refusal>
    ensures { as_outcome call result buffer.new ≡ decided call event buffer.old }
{
    if other_call(call, event) {
        return Err(Refusal::OtherCall);
    }
    let Some(row) = row_for(call, event) else {
        return Err(Refusal::NoRow);
    };
    if over_transmission(call, event) {
        return Err(Refusal::OwnTransmission);
    }
    carry(settle(call, row), buffer)
}

pub fn step(call: Call, event: &[u8], buffer: &mut [u8]) -> Result<Stepped, Refusal>
    ensures { as_outcome call result buffer.new ≡ step_of call event.now buffer.old }
{
    if !call.sound() {
        return Err(Refusal::NotSound);
    }
    decide(call, read(event)?, buffer)
}
