// What a set with direct mode links beside the rest: the outgoing call on byte slices. A host keeps a call as 7 bytes and hands them in with each
// event. Every entry returns answer * 2^24 + place * 2^16 + count of bytes written; 4 alone has a place, the reader's.
#![tactic(auto)]

ghost use Rattle.std.specs.Prelude.{◌≡◌, List, ℕ, ◌<◌, ◌^◌};
ghost use Rattle.direct.specs.Events.{events};
ghost use Rattle.direct.specs.Messages.{messages};
ghost use Rattle.host_direct.specs.Entries.{Left, word, freshened, host_step, read_word, checked, copied_by, copied};

mod packed;

use crate::packed::{pack, unpack};
use direct::call::Call;
use direct::events::Event;
use direct::messages::Message;
use direct::step::step;
use records::record::{Record, read, write};

// ANSWER, PLACE, `refused`, `check` and `copy` are host's once more: this archive is built and checked without host (docs/landings/request-14-direct.md).

// A result is answer * ANSWER + place * PLACE + count, so that ANSWER alone is answer 1.
const ANSWER: u32 = 16777216;

const PLACE: u32 = 65536;

// A refusal's number and place as a result.
fn refused(number: u8, place: u8) -> u32
    ensures { result ≡ word number place 0 }
{
    number as u32 * ANSWER + place as u32 * PLACE
}

// What reading some bytes answers.
fn check<R: Record>(bytes: &[u8]) -> u32
    ensures { result ≡ read_word (R.read_of bytes.now) }
{
    match read::<R>(bytes) {
        Ok(_) => 0,
        Err(unreadable) => refused(unreadable.number(), unreadable.place()),
    }
}

// A record read, and written back into out.
fn copy<R: Record>(bytes: &[u8], out: &mut [u8]) -> u32
    ensures { ◌≡◌ {A = ℕ × List ℕ} (result, out.new) (copied_by R.write_of (R.read_of bytes.now) out.old) }
{
    match read::<R>(bytes) {
        Ok(record) => match write(record, out) {
            Ok(count) => count as u32,
            Err(unwritable) => refused(unwritable.number(), 0),
        },
        Err(unreadable) => refused(unreadable.number(), unreadable.place()),
    }
}

// Writes the fresh record; answer 1 where it has not 7 bytes.
#[tactic(auto, using(crate::proofs::Packing::written_over), unfolding(crate::specs::Entries::freshened))]
#[unsafe(no_mangle)]
pub extern "C" fn callcontrol_direct_fresh(call: &mut [u8]) -> u32
    ensures { ◌≡◌ {A = ℕ × List ℕ} (result, call.new) (freshened call.old) }
{
    if call.len() != 7 {
        return ANSWER;
    }
    call.copy_from_slice(&pack(Call::fresh()));
    7
}

// One step: the record goes on and the messages are in out, or nothing is changed.
#[unsafe(no_mangle)]
pub extern "C" fn callcontrol_direct_step(call: &mut [u8], event: &[u8], out: &mut [u8]) -> u32
    ensures { ◌≡◌ {A = Left} (record { result = result; call = call.new; out = out.new }) (host_step call.old event.now out.old) }
{
    let Some(before) = unpack(call) else {
        return ANSWER;
    };
    match step(before, event, out) {
        Ok(stepped) => {
            call.copy_from_slice(&pack(stepped.call));
            stepped.count as u32
        }
        Err(refusal) => refused(refusal.number(), refusal.place()),
    }
}

// What reading an event answers.
#[tactic(auto, unfolding(crate::specs::Entries::checked))]
#[unsafe(no_mangle)]
pub extern "C" fn callcontrol_direct_check_event(bytes: &[u8]) -> u32
    ensures { result ≡ checked events bytes.now }
{
    check::<Event>(bytes)
}

// What reading a message answers.
#[tactic(auto, unfolding(crate::specs::Entries::checked))]
#[unsafe(no_mangle)]
pub extern "C" fn callcontrol_direct_check_message(bytes: &[u8]) -> u32
    ensures { result ≡ checked messages bytes.now }
{
    check::<Message>(bytes)
}

// An event read, and written back into out.
#[tactic(auto, unfolding(crate::specs::Entries::copied))]
#[unsafe(no_mangle)]
pub extern "C" fn callcontrol_direct_copy_event(bytes: &[u8], out: &mut [u8]) -> u32
    ensures { ◌≡◌ {A = ℕ × List ℕ} (result, out.new) (copied events bytes.now out.old) }
{
    copy::<Event>(bytes, out)
}

// A message read, and written back into out.
#[tactic(auto, unfolding(crate::specs::Entries::copied))]
#[unsafe(no_mangle)]
pub extern "C" fn callcontrol_direct_copy_message(bytes: &[u8], out: &mut [u8]) -> u32
    ensures { ◌≡◌ {A = ℕ × List ℕ} (result, out.new) (copied messages bytes.now out.old) }
{
    copy::<Message>(bytes, out)
}
