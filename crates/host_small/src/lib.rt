// What the smallest set links in place of host: callcontrol_fresh and callcontrol_step by the second engine, under host's names, over host's
// bytes and with host's promises word for word. A set that changes from one archive to the other changes no line of C.
#![tactic(auto)]

ghost use Rattle.std.specs.Prelude.{◌≡◌, List, ℕ};
ghost use Rattle.host.specs.Entries.{Left, freshened, host_step};

use host::leave;
use host::packed::{ANSWER, unpacked};
use small::small_step;

// Writes the fresh record; answer 1 where it has not 22 bytes.
#[unsafe(no_mangle)]
pub extern "C" fn callcontrol_fresh(call: &mut [u8]) -> u32
    ensures { ◌≡◌ {A = ℕ × List ℕ} (result, call.new) (freshened call.old) }
{
    host::callcontrol_fresh(call)
}

// One step: the record goes on and the messages are in out, or nothing is changed. It is host's with the other engine.
#[unsafe(no_mangle)]
pub extern "C" fn callcontrol_step(call: &mut [u8], event: &[u8], out: &mut [u8]) -> u32
    ensures { ◌≡◌ {A = Left} (record { result = result; call = call.new; out = out.new }) (host_step call.old event.now out.old) }
{
    let Some(before) = unpacked(call) else {
        return ANSWER;
    };
    leave(small_step(before, event, out), call)
}
