// The step: an event comes in; the next record and the messages go out, or a refusal that changes nothing.
ghost use Rattle.std.specs.Prelude.{◌≡◌, ◌<◌};
ghost use Rattle.direct.specs.declared.step.Refusal.TheVariants.{Unreadable};
ghost use Rattle.direct.specs.Step.{refusal_number, refusal_place, beyond, decided, step_of, as_outcome};

use crate::call::Call;
use crate::events::Event;
use crate::rows::row_for;
use records::bodies::Unreadable;
use records::record::read;

// Why an event is not taken. Nothing is written then, and the record stays as it was.
#[derive(Clone, Copy, Debug, PartialEq, Eq)]
pub enum Refusal {
    // 1: the record is not sound.
    NotSound,
    // 2, 3 and 4: the bytes are no event.
    Unreadable(Unreadable),
    // 7: the messages are longer than the lent buffer.
    NoRoom,
    // 60: attempts out of range, or lowest above target.
    BeyondLimits,
    // 61: no row for this state.
    NoRow,
}

impl Refusal {
    // The refusal as the paper's number.
    pub fn number(self) -> u8
        ensures value { result ≡ refusal_number self }
        ensures upper_bound { result < 62 }
    {
        match self {
            Refusal::NotSound => 1,
            Refusal::Unreadable(unreadable) => unreadable.number(),
            Refusal::NoRoom => 7,
            Refusal::BeyondLimits => 60,
            Refusal::NoRow => 61,
        }
    }

    // The place that comes with 4, and 0 with every other.
    pub fn place(self) -> u8
        ensures { result ≡ refusal_place self }
    {
        match self {
            Refusal::Unreadable(unreadable) => unreadable.place(),
            _ => 0,
        }
    }
}

impl From<Unreadable> for Refusal {
    ghost from_gives = { λ why r. r ≡ Unreadable why };

    fn from(why: Unreadable) -> Refusal {
        Refusal::Unreadable(why)
    }
}

// What a step gives back: how many bytes its messages have, and the next record.
#[derive(Clone, Copy, Debug, PartialEq, Eq)]
pub struct Stepped {
    pub count: usize,
    pub call: Call,
}

// A SETUP request with attempts out of range, or lowest above target.
fn beyond(event: Event) -> bool
    ensures { result ≡ beyond event }
{
    matches!(event, Event::SetupRequest { target, lowest, attempts }
        if attempts < Call::LIMIT_LEAST || Call::LIMIT_MOST < attempts || target < lowest)
}

// An event that was read, of a record that the caller has found sound.
#[tactic(auto, unfolding(crate::specs::Step::decided))]
fn decide(call: Call, event: Event, buffer: &mut [u8]) -> Result<Stepped, Refusal>
    ensures { as_outcome call result buffer.new ≡ decided call event buffer.old }
{
    if beyond(event) {
        return Err(Refusal::BeyondLimits);
    }
    row_for(call, event, buffer)
}

// One step of a call. A refusal writes nothing, and the record stays as it was.
#[tactic(auto, unfolding(crate::specs::Step::step_of))]
pub fn step(call: Call, event: &[u8], buffer: &mut [u8]) -> Result<Stepped, Refusal>
    ensures { as_outcome call result buffer.new ≡ step_of call event.now buffer.old }
{
    if !call.sound() {
        return Err(Refusal::NotSound);
    }
    let event = read::<Event>(event)?;
    decide(call, event, buffer)
}
