// Where an event goes: to one place, to every place that would take it, or to none.
ghost use Rattle.std.specs.Prelude.{◌≡◌, ◌<◌};
ghost use Rattle.records.specs.Tables.{read};
ghost use Rattle.records.specs.Events.{events};
ghost use Rattle.callcontrol.specs.declared.step.Refusal.{Refusal};
ghost use Rattle.console.specs.declared.route.ConsoleRefusal.{ConsoleRefusal};
ghost use Rattle.console.specs.Route.{console_number, console_place, aim_of, at_named, as_route};
ghost use Rattle.console.specs.Keys.{at_idle_by, outgoing_by, incoming_by, at_holder_by, route_by, as_lead, lead_by};

use crate::keys::Keys;
use callcontrol::step::Refusal;
use records::bodies::Unreadable;
use records::events::Event;
use records::record::read;

// Why the console refuses an event: the step's own refusals, and those that only a console gives.
#[derive(Clone, Copy, Debug, PartialEq, Eq)]
pub enum ConsoleRefusal {
    OfStep(Refusal),
    // 40: the place that is named is over 7.
    PlaceOver,
    // 41: D-SETUP with an identifier that a place holds already.
    IdHeld,
    // 42: SETUP request while a place outside IDLE has no identifier.
    IdAwaited,
    // 43: no IDLE place.
    NoIdlePlace,
}

impl ConsoleRefusal {
    // The paper's number.
    pub fn number(self) -> u8
        ensures value { result ≡ console_number self }
        ensures upper_bound { result < 44 }
    {
        match self {
            ConsoleRefusal::OfStep(own) => own.number(),
            ConsoleRefusal::PlaceOver => 40,
            ConsoleRefusal::IdHeld => 41,
            ConsoleRefusal::IdAwaited => 42,
            ConsoleRefusal::NoIdlePlace => 43,
        }
    }

    // The place that comes with 4, an offset in the record and never one of the eight; 0 with every other.
    pub fn place(self) -> u8
        ensures { result ≡ console_place self }
    {
        match self {
            ConsoleRefusal::OfStep(own) => own.place(),
            _ => 0,
        }
    }
}

impl From<Refusal> for ConsoleRefusal {
    ghost from_gives = { λ own refusal. refusal ≡ ConsoleRefusal.OfStep own };

    fn from(own: Refusal) -> ConsoleRefusal {
        ConsoleRefusal::OfStep(own)
    }
}

impl From<Unreadable> for ConsoleRefusal {
    ghost from_gives = { λ unreadable refusal. refusal ≡ ConsoleRefusal.OfStep (Refusal.Unreadable unreadable) };

    fn from(unreadable: Unreadable) -> ConsoleRefusal {
        ConsoleRefusal::OfStep(Refusal::Unreadable(unreadable))
    }
}

// By what an event finds its place.
#[derive(Clone, Copy, Debug, PartialEq, Eq)]
pub enum Aim {
    // By the number handed in beside the record.
    Place,
    // SETUP request: a new call, which has no identifier yet.
    Outgoing,
    // D-SETUP: a new call with this identifier.
    Incoming(u16),
    // Any other network event: the call with this identifier.
    Held(u16),
    // BREAK and RESUME: every call that would take it.
    Every,
}

// Where an event goes that is not refused.
#[derive(Clone, Copy, Debug, PartialEq, Eq)]
pub enum Target {
    // To the place with this number.
    Place(usize),
    // To every place that would take it.
    Everywhere,
}

pub fn aim_of(event: Event) -> Aim
    ensures { result ≡ aim_of event }
{
    match event {
        Event::SetupRequest { .. } => Aim::Outgoing,
        Event::DSetup { id, .. } => Aim::Incoming(id),
        Event::DCallProceeding { id }
        | Event::DAlert { id }
        | Event::DConnect { id, .. }
        | Event::DConnectAcknowledge { id, .. }
        | Event::DInfo { id, .. }
        | Event::DTxGranted { id, .. }
        | Event::DTxCeased { id }
        | Event::DTxInterrupt { id, .. }
        | Event::DTxWait { id }
        | Event::DTxContinue { id, .. }
        | Event::DCallRestore { id, .. }
        | Event::DDisconnect { id }
        | Event::DRelease { id } => Aim::Held(id),
        Event::SetupResponse
        | Event::ReleaseRequest
        | Event::TxRequest { .. }
        | Event::ReportSent
        | Event::ReportFailed
        | Event::Expiry { .. } => Aim::Place,
        Event::Break | Event::Resume => Aim::Every,
    }
}

#[tactic(auto, unfolding(crate::specs::Route::at_named))]
fn at_named(place: u8) -> Result<Target, ConsoleRefusal>
    ensures { as_route result ≡ at_named place }
{
    if place < 8 {
        return Ok(Target::Place(place as usize));
    }
    Err(ConsoleRefusal::PlaceOver)
}

fn at_lowest_idle(keys: Keys) -> Result<Target, ConsoleRefusal>
    ensures { as_route result ≡ at_idle_by keys.each }
{
    match keys.lowest_idle() {
        Some(k) => Ok(Target::Place(k)),
        None => Err(ConsoleRefusal::NoIdlePlace),
    }
}

fn outgoing(keys: Keys) -> Result<Target, ConsoleRefusal>
    ensures { as_route result ≡ outgoing_by keys.each }
{
    if keys.held_by(0).is_some() {
        return Err(ConsoleRefusal::IdAwaited);
    }
    at_lowest_idle(keys)
}

fn incoming(keys: Keys, id: u16) -> Result<Target, ConsoleRefusal>
    ensures { as_route result ≡ incoming_by keys.each id }
{
    if keys.held_by(id).is_some() {
        return Err(ConsoleRefusal::IdHeld);
    }
    at_lowest_idle(keys)
}

// The place with the identifier, else the one without any.
fn at_holder(keys: Keys, id: u16) -> Result<Target, ConsoleRefusal>
    ensures { as_route result ≡ at_holder_by keys.each id }
{
    match keys.held_by(id).or_else(|| keys.held_by(0)) {
        Some(k) => Ok(Target::Place(k)),
        None => Err(ConsoleRefusal::OfStep(Refusal::OtherCall)),
    }
}

#[tactic(auto, unfolding(crate::specs::Keys::route_by))]
pub fn route_of(keys: Keys, place: u8, event: Event) -> Result<Target, ConsoleRefusal>
    ensures { as_route result ≡ route_by keys.each place event }
{
    match aim_of(event) {
        Aim::Place => at_named(place),
        Aim::Outgoing => outgoing(keys),
        Aim::Incoming(id) => incoming(keys, id),
        Aim::Held(id) => at_holder(keys, id),
        Aim::Every => Ok(Target::Everywhere),
    }
}

// Where the bytes of an event lead, and the event. A call of its own: in the caller what follows would be written out for each case of the reader.
#[inline(never)]
pub fn lead(keys: Keys, place: u8, event: &[u8]) -> Result<(Target, Event), ConsoleRefusal>
    ensures { as_lead result ≡ lead_by keys.each place (read events event.now) }
{
    let event = read(event)?;
    Ok((route_of(keys, place, event)?, event))
}
