// One event for the console: the table and the messages go on, or a refusal changes nothing.
ghost use Rattle.std.specs.Prelude.{◌≡◌, ◌+◌, ◌<◌, ◌≤◌, length, replicate, IfOk};
ghost use Rattle.records.specs.declared.messages.Message.{Message};
ghost use Rattle.records.specs.Bodies.{laid};
ghost use Rattle.records.specs.Messages.{message_bytes};
ghost use Rattle.callcontrol.specs.Writing.{bytes_of};
ghost use Rattle.callcontrol.specs.Step.{as_outcome};
ghost use Rattle.console.specs.declared.route.Aim.{Aim};
ghost use Rattle.console.specs.Route.{aim_of};
ghost use Rattle.console.specs.Console.{placed, part, next_of, OneMore, UpTo, at_place, everywhere, as_everywhere, as_console, console_of};

use crate::keys::Keys;
use crate::lent::put_all;
use crate::route::{ConsoleRefusal, Target, lead};
use crate::table::table_sound;
use callcontrol::call::Call;
use callcontrol::step::{Refusal, Stepped, decide};
use records::events::Event;
use records::messages::Message;
use records::record::Record;

// What the places that were passed come to: how many there are up to the last that takes the event, 0 where none does, and how many bytes they write.
#[derive(Clone, Copy, Debug, PartialEq, Eq)]
pub struct SoFar {
    pub upto: usize,
    pub size: usize,
}

// What an event that is taken gives: the count of bytes written and the eight records. They stay an array: no function asks anything of them but that they
// are eight, so a struct would only be made and opened.
#[derive(Clone, Copy, Debug, PartialEq, Eq)]
pub struct ConsoleStepped {
    pub count: usize,
    pub calls: [Call; 8],
}

// The same of an event for every place, and how many places there are up to the last that takes it: the records behind stay.
#[derive(Clone, Copy, Debug, PartialEq, Eq)]
pub struct AllStepped {
    pub upto: usize,
    pub count: usize,
    pub calls: [Call; 8],
}

// The record that names a place, where there is room for it.
fn put_place(k: u8, buffer: &mut [u8])
    ensures { buffer.new ≡ laid (message_bytes (Message.Place k)) buffer.old 0 }
{
    Message::Place { at: k }.lay(buffer, 0);
}

// The step of one place: its messages, if it writes any, behind the record that names it.
pub fn place_step(call: Call, k: u8, event: Event, buffer: &mut [u8]) -> Result<Stepped, Refusal>
    ensures { as_outcome call result buffer.new ≡ placed k call event buffer.old }
{
    let head = buffer.len().min(5);
    let stepped = decide(call, event, &mut buffer[head..])?;
    if stepped.count == 0 {
        return Ok(stepped);
    }
    put_place(k, buffer);
    Ok(Stepped {
        count: 5 + stepped.count,
        call: stepped.call,
    })
}

// An event for one place leaves every other record.
fn at_place(
    mut calls: [Call; 8],
    k: usize,
    event: Event,
    buffer: &mut [u8],
) -> Result<ConsoleStepped, ConsoleRefusal>
    requires { k < 8 }
    ensures { as_console calls result buffer.new ≡ at_place k calls event buffer.old }
{
    let stepped = place_step(calls[k], k as u8, event, buffer)?;
    calls[k] = stepped.call;
    Ok(ConsoleStepped {
        count: stepped.count,
        calls,
    })
}

// The turn of one place, where there is room for what it writes: behind what the places in front of it write. A place that does not take the event stays as it is.
// That the event is for every place stays a clause: in a type of its own it could not be told by `route_of`, so a second one beside `Target` would be needed.
pub(crate) fn turn(call: &mut Call, k: usize, event: Event, passed: SoFar, own: &mut [u8]) -> SoFar
    requires { (aim_of event ≡ Aim.Every) × (k < 8) × (passed.size + length (bytes_of (part k call.old event)) ≤ length own.old) }
    ensures { (call.new ≡ next_of event call.old) × OneMore result.upto result.size own.new k call.old event passed own.old }
{
    let at = passed.size;
    let Ok(stepped) = place_step(*call, k as u8, event, &mut own[at..]) else {
        return passed;
    };
    *call = stepped.call;
    SoFar {
        upto: k + 1,
        size: at + stepped.count,
    }
}

// Room for what eight places write for BREAK or RESUME, whatever their records are.
pub fn own_buffer() -> [u8; 184]
    ensures value { result ≡ replicate 184 0 }
    ensures value_2 { 184 ≡ length result }
{
    [0; 184]
}

// An event for every place that would take it: laid in a buffer of our own first, and copied only where all of it fits.
pub fn everywhere(
    mut calls: [Call; 8],
    event: Event,
    buffer: &mut [u8],
) -> Result<AllStepped, ConsoleRefusal>
    requires { aim_of event ≡ Aim.Every }
    ensures value { as_everywhere calls result buffer.new ≡ everywhere calls event buffer.old }
    ensures last { IfOk result (λ all. UpTo all.upto calls event) }
{
    let mut own = own_buffer();
    let passed = put_all(&mut calls, event, &mut own);
    if passed.upto == 0 {
        return Err(ConsoleRefusal::OfStep(Refusal::NoRow));
    }
    let count = passed.size;
    if buffer.len() < count {
        return Err(ConsoleRefusal::OfStep(Refusal::NoRoom));
    }
    buffer[..count].copy_from_slice(&own[..count]);
    Ok(AllStepped {
        upto: passed.upto,
        count,
        calls,
    })
}

pub fn console_step(
    calls: [Call; 8],
    place: u8,
    event: &[u8],
    buffer: &mut [u8],
) -> Result<ConsoleStepped, ConsoleRefusal>
    ensures { as_console calls result buffer.new ≡ console_of calls place event.now buffer.old }
{
    if !table_sound(calls) {
        return Err(ConsoleRefusal::OfStep(Refusal::NotSound));
    }
    let (target, event) = lead(Keys::of(calls), place, event)?;
    match target {
        Target::Place(k) => at_place(calls, k, event, buffer),
        Target::Everywhere => {
            let AllStepped { count, calls, .. } = everywhere(calls, event, buffer)?;
            Ok(ConsoleStepped { count, calls })
        }
    }
}
