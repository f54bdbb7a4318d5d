// What a set links: call control on byte slices. A host keeps a call as 22 bytes and hands them in with each event. Every entry but
// callcontrol_pieces_next returns answer * 2^24 + place * 2^16 + count; 4 alone has a place, the reader's.
#![tactic(auto)]

ghost use Rattle.std.specs.Prelude.{◌≡◌, List, ℕ, ◌≤◌, length, IfOk};
ghost use Rattle.records.specs.Events.{events};
ghost use Rattle.records.specs.Messages.{messages};
ghost use Rattle.callcontrol.specs.Step.{as_outcome};
ghost use Rattle.host.specs.Entries.{Left, stepped, freshened, host_step, read_word, checked, copied, copied_by};

pub mod bank;
pub mod packed;
pub mod rooms;
pub mod serial;

use crate::packed::{ANSWER, BYTES, pack, refused, unpacked};
use callcontrol::call::Call;
use callcontrol::step::{Refusal, Stepped, step};
use records::events::Event;
use records::messages::Message;
use records::record::{Record, read, write};

// What reading some bytes answers.
fn check<R: Record>(bytes: &[u8]) -> u32
    ensures { result ≡ read_word (R.read_of bytes.now) }
{
    match read::<R>(bytes) {
        Ok(_) => 0,
        Err(unreadable) => refused(unreadable.number(), unreadable.place()),
    }
}

// A record read, and written back into out.
fn copy<R: Record>(bytes: &[u8], out: &mut [u8]) -> u32
    ensures { ◌≡◌ {A = ℕ × List ℕ} (result, out.new) (copied_by R.write_of (R.read_of bytes.now) out.old) }
{
    let record: R = match read(bytes) {
        Ok(record) => record,
        Err(unreadable) => return refused(unreadable.number(), unreadable.place()),
    };
    match write(record, out) {
        Ok(count) => count as u32,
        Err(unwritable) => refused(unwritable.number(), 0),
    }
}

// Writes the fresh record; answer 1 where it has not 22 bytes.
pub fn callcontrol_fresh(call: &mut [u8]) -> u32
    ensures { ◌≡◌ {A = ℕ × List ℕ} (result, call.new) (freshened call.old) }
{
    if call.len() != BYTES {
        return ANSWER;
    }
    pack(Call::fresh(), call);
    BYTES as u32
}

// The result of a step, and its record into the bytes: a refused one leaves them as they are.
pub fn leave(answered: Result<Stepped, Refusal>, call: &mut [u8]) -> u32
    requires { (length call.old ≡ 22) × IfOk answered (λ s. s.count ≤ 122) }
    ensures { (before : _) (out : List ℕ) → ◌≡◌ {A = Left} (record { result = result; call = call.new; out = out }) (stepped call.old (as_outcome before answered out)) }
{
    match answered {
        Ok(stepped) => {
            pack(stepped.call, call);
            stepped.count as u32
        }
        Err(refusal) => refused(refusal.number(), refusal.place()),
    }
}

// One step: the record goes on and the messages are in out, or nothing is changed.
pub fn callcontrol_step(call: &mut [u8], event: &[u8], out: &mut [u8]) -> u32
    ensures { ◌≡◌ {A = Left} (record { result = result; call = call.new; out = out.new }) (host_step call.old event.now out.old) }
{
    let Some(before) = unpacked(call) else {
        return ANSWER;
    };
    leave(step(before, event, out), call)
}

// What reading an event answers.
#[tactic(auto, unfolding(crate::specs::Entries::checked))]
pub fn callcontrol_check_event(bytes: &[u8]) -> u32
    ensures { result ≡ checked events bytes.now }
{
    check::<Event>(bytes)
}

// What reading a message answers.
#[tactic(auto, unfolding(crate::specs::Entries::checked))]
pub fn callcontrol_check_message(bytes: &[u8]) -> u32
    ensures { result ≡ checked messages bytes.now }
{
    check::<Message>(bytes)
}

// An event read, and written back into out.
#[tactic(auto, unfolding(crate::specs::Entries::copied))]
pub fn callcontrol_copy_event(bytes: &[u8], out: &mut [u8]) -> u32
    ensures { ◌≡◌ {A = ℕ × List ℕ} (result, out.new) (copied events bytes.now out.old) }
{
    copy::<Event>(bytes, out)
}

// A message read, and written back into out.
#[tactic(auto, unfolding(crate::specs::Entries::copied))]
pub fn callcontrol_copy_message(bytes: &[u8], out: &mut [u8]) -> u32
    ensures { ◌≡◌ {A = ℕ × List ℕ} (result, out.new) (copied messages bytes.now out.old) }
{
    copy::<Message>(bytes, out)
}
