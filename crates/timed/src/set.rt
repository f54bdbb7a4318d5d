// A set: record and bank together. A step and due are refused first with 1 (no set), 31 (the table of lengths) and 32 (the reading). A refusal
// changes nothing, and the reading is then not accepted.
ghost use Rattle.std.specs.Prelude.{◌≡◌, ◌<◌, ◌≤◌, true, length, take, slice_get};
ghost use Rattle.callcontrol.specs.declared.step.Refusal.TheVariants.{Unreadable as UnreadableEvent};
ghost use Rattle.callcontrol.specs.Call.{sound};
ghost use Rattle.timed.specs.declared.set.Refusal.TheVariants.{OfStep};
ghost use Rattle.timed.specs.Set.{new_of, is_set, with_flags};
ghost use Rattle.timed.specs.Entries.{refusal_number, refusal_place, place_of, step_of, due_of, as_outcome, NotUnsound};
ghost use Rattle.timed.specs.Parts.{joined, ready_at, Readable, an_expiry, of_event};

use crate::lengths::table_right;
use crate::starts::start_all;
use callcontrol::call::Call;
use callcontrol::step;
use callcontrol::step::decide;
use records::bodies::Unreadable;
use records::events::Event;
use records::record::read;
use timers::bank::Bank;

// Why nothing is done.
#[derive(Clone, Copy, Debug, PartialEq, Eq)]
pub enum Refusal {
    // 1: the record is not sound, or the bank's timers are not the record's.
    NoSet,
    // 31: a length of the table is out of range.
    LengthOutOfRange,
    // 32: the reading is earlier than the last.
    ReadingEarlier,
    // 34: a timer is due: due comes first, and then this event again.
    TimerDue,
    // 35: expiries are made by due alone.
    ExpiryHandedIn,
    // The step's own. It never finds the record unsound, which is NoSet; a clause says so and no type, since the step's enum is handed on whole.
    OfStep(step::Refusal),
}

impl Refusal {
    // Its number, 0 being for what is taken.
    pub fn number(self) -> u8
        ensures value { result ≡ refusal_number self }
        ensures upper_bound { result < 36 }
    {
        match self {
            Refusal::NoSet => 1,
            Refusal::LengthOutOfRange => 31,
            Refusal::ReadingEarlier => 32,
            Refusal::TimerDue => 34,
            Refusal::ExpiryHandedIn => 35,
            Refusal::OfStep(refusal) => refusal.number(),
        }
    }

    // The reader's place with 4, and 0 with every other.
    pub fn place(self) -> u8
        ensures { result ≡ refusal_place self }
    {
        match self {
            Refusal::OfStep(refusal) => refusal.place(),
            _ => 0,
        }
    }
}

impl From<step::Refusal> for Refusal {
    ghost from_gives = { λ own refusal. refusal ≡ OfStep own };

    fn from(own: step::Refusal) -> Refusal {
        Refusal::OfStep(own)
    }
}

impl From<Unreadable> for Refusal {
    ghost from_gives = { λ unreadable refusal. refusal ≡ OfStep (UnreadableEvent unreadable) };

    fn from(unreadable: Unreadable) -> Refusal {
        Refusal::OfStep(step::Refusal::Unreadable(unreadable))
    }
}

// A record and a bank. They may be no set, and are then refused with 1: so no invariant says that they are one.
#[derive(Clone, Copy, Debug, PartialEq, Eq)]
pub struct Timed {
    pub call: Call,
    pub bank: Bank,
}

// What was taken: whether a timer has expired, the count of bytes written and the next set.
#[derive(Clone, Copy, Debug, PartialEq, Eq)]
pub struct Stepped {
    pub expired: bool,
    pub count: usize,
    pub timed: Timed,
}

// A set whose bank has accepted a reading, with the first of the timers that are then due.
#[derive(Clone, Copy, Debug, PartialEq, Eq)]
struct Ready {
    first: Option<u16>,
    timed: Timed,
}

fn is_expiry(event: Event) -> bool
    ensures { result ≡ an_expiry event }
{
    matches!(event, Event::Expiry { .. })
}

// The first of the timers in a list of which so many are due.
fn first_of(due: &[u16; 7], count: usize) -> Option<u16>
    requires { count ≤ length due.now }
    ensures { result ≡ slice_get (take count due.now) 0 }
{
    if count == 0 { None } else { Some(due[0]) }
}

impl Timed {
    // The fresh record, and no timer runs.
    pub fn new(reading: u32) -> Self
        ensures { result ≡ new_of reading }
    {
        Timed {
            call: Call::fresh(),
            bank: Bank::new(reading),
        }
    }

    // The record's timers run on the bank.
    fn joined(call: Call, bank: Bank) -> Self
        ensures { result ≡ joined call bank }
    {
        let timers = call.timers;
        Timed {
            call,
            bank: Bank {
                running: timers,
                ..bank
            },
        }
    }

    // The record is sound, and the bank's timers are the record's.
    #[tactic(auto, using(crate::proofs::Flags::same_is), unfolding(crate::specs::Set::is_set))]
    fn is_set(self) -> bool
        ensures { result ≡ is_set self }
    {
        self.call.sound() && self.bank.running == self.call.timers
    }

    #[tactic(auto, unfolding(crate::specs::Parts::ready_at))]
    fn ready(self, lengths: &[u32], reading: u32) -> Result<Ready, Refusal>
        ensures { result ≡ ready_at self lengths.now reading }
    {
        if !self.is_set() {
            return Err(Refusal::NoSet);
        }
        if !table_right(lengths) {
            return Err(Refusal::LengthOutOfRange);
        }
        let mut due = [0; 7];
        let Ok(advanced) = self.bank.advance(reading, &mut due) else {
            return Err(Refusal::ReadingEarlier);
        };
        Ok(Ready {
            first: first_of(&due, advanced.count),
            timed: Timed {
                call: self.call,
                bank: advanced.bank,
            },
        })
    }

    // An event that was read, on a set whose bank has accepted the reading: the step, and the STARTs that it has written.
    fn take(
        self,
        lengths: &[u32],
        event: Event,
        expired: bool,
        out: &mut [u8],
    ) -> Result<Stepped, Refusal>
        requires { (sound self.call ≡ true) × Readable event }
        ensures outcome { (bank : Bank) → as_outcome (record self { bank = bank }) result out.new ≡ of_event (place_of expired) (record self { bank = bank }) self.bank lengths.now event out.old }
        ensures sound { NotUnsound result }
    {
        let stepped = decide(self.call, event, out)?;
        let started = start_all(self.bank, lengths, &out[..stepped.count]);
        Ok(Stepped {
            expired,
            count: stepped.count,
            timed: Timed::joined(stepped.call, started),
        })
    }

    // One step at a reading.
    #[tactic(auto, using(crate::proofs::Answering::not_ready, crate::proofs::Answering::not_own), unfolding(crate::specs::Entries::step_of))]
    pub fn step(
        self,
        lengths: &[u32],
        reading: u32,
        event: &[u8],
        out: &mut [u8],
    ) -> Result<Stepped, Refusal>
        ensures outcome { as_outcome self result out.new ≡ step_of self lengths.now reading event.now out.old }
        ensures sound { NotUnsound result }
    {
        let ready = self.ready(lengths, reading)?;
        if ready.first.is_some() {
            return Err(Refusal::TimerDue);
        }
        let event = read(event)?;
        if is_expiry(event) {
            return Err(Refusal::ExpiryHandedIn);
        }
        ready.timed.take(lengths, event, false, out)
    }

    // The first of the timers that are due at a reading expires, where one is.
    #[tactic(auto, using(crate::proofs::Answering::not_ready, crate::proofs::Answering::not_own), unfolding(crate::specs::Entries::due_of))]
    pub fn due(self, lengths: &[u32], reading: u32, out: &mut [u8]) -> Result<Stepped, Refusal>
        ensures outcome { as_outcome self result out.new ≡ due_of self lengths.now reading out.old }
        ensures sound { NotUnsound result }
    {
        let ready = self.ready(lengths, reading)?;
        match ready.first {
            Some(timer) => ready
                .timed
                .take(lengths, Event::Expiry { timer }, true, out),
            None => Ok(Stepped {
                expired: false,
                count: 0,
                timed: Timed::joined(self.call, ready.timed.bank),
            }),
        }
    }
}
