// The console on byte slices: a table is eight records of 22 bytes, one after the other.
ghost use Rattle.std.specs.Prelude.{◌≡◌, List, true, ℕ, ◌<◌, ◌≤◌, length};
ghost use Rattle.console.specs.declared.route.Aim.{Aim};
ghost use Rattle.console.specs.Route.{aim_of};
ghost use Rattle.console.specs.Console.{at_place, everywhere, console_of};
ghost use Rattle.host_console.specs.Table.{TableLeft, as_left, is_table, held_table, packed_first, console_left, console_freshened, console_host_step};
ghost use Rattle.host_console.specs.Reading.{KeysOf};

use callcontrol::call::Call;
use console::console::{everywhere, place_step};
use console::keys::{Keys, key_of};
use console::route::{ConsoleRefusal, Target, lead};
use host::packed::{ANSWER, held, pack, refused, unpacked};
use records::events::Event;

// The keys of a table that is eight sound records, no two alike; the bytes are gone through once.
fn table_keys(s: &[u8]) -> Option<Keys>
    ensures { KeysOf result s.now }
{
    if s.len() != 176 {
        return None;
    }
    let mut each = [0; 8];
    for k in 0..8 {
        let at = 22 * k;
        let call = unpacked(&s[at..at + 22])?;
        if !call.sound() {
            return None;
        }
        each[k] = key_of(call, k);
    }
    let keys = Keys { each };
    if keys.apart() { Some(keys) } else { None }
}

// The calls that a table's bytes hold.
fn held_table(s: &[u8]) -> [Call; 8]
    requires { length s.now ≡ 176 }
    ensures { result ≡ held_table s.now }
{
    let mut calls = [Call::fresh(); 8];
    for k in 0..8 {
        let at = 22 * k;
        calls[k] = held(&s[at..at + 22]);
    }
    calls
}

// The first of eight calls, up to a place, into a table's bytes.
fn pack_table(calls: [Call; 8], upto: usize, s: &mut [u8])
    requires { (length s.old ≡ 176) × (upto ≤ 8) }
    ensures { s.new ≡ packed_first upto calls s.old }
{
    for place in 0..upto {
        let at = 22 * place;
        pack(calls[place], &mut s[at..at + 22]);
    }
}

// Writes eight fresh records; answer 1 where the table has not 176 bytes.
#[unsafe(no_mangle)]
pub extern "C" fn callcontrol_console_fresh(table: &mut [u8]) -> u32
    ensures { ◌≡◌ {A = ℕ × List ℕ} (result, table.new) (console_freshened table.old) }
{
    if table.len() != 176 {
        return ANSWER;
    }
    pack_table([Call::fresh(); 8], 8, table);
    176
}

// An event for one place: its record alone is read and written.
fn to_place(table: &mut [u8], k: usize, event: Event, out: &mut [u8]) -> Result<u32, ConsoleRefusal>
    requires k_bound { k < 8 }
    requires table_value { is_table table.old ≡ true }
    ensures { as_left result table.new out.new ≡ console_left table.old (at_place k (held_table table.old) event out.old) }
{
    let at = 22 * k;
    let call = held(&table[at..at + 22]);
    let stepped = place_step(call, k as u8, event, out)?;
    pack(stepped.call, &mut table[at..at + 22]);
    Ok(stepped.count as u32)
}

// An event for every place: eight records are read and stepped, and written where the event is taken and all messages fit, up to the last that takes it.
// That the event is for every place stays a clause, as at `turn` of console.
fn to_all(table: &mut [u8], event: Event, out: &mut [u8]) -> Result<u32, ConsoleRefusal>
    requires { (aim_of event ≡ Aim.Every) × (is_table table.old ≡ true) }
    ensures { as_left result table.new out.new ≡ console_left table.old (everywhere (held_table table.old) event out.old) }
{
    let all = everywhere(held_table(table), event, out)?;
    let calls = all.calls;
    pack_table(calls, all.upto, table);
    Ok(all.count as u32)
}

// An event where its bytes lead, on a table with these keys.
fn step_of(
    table: &mut [u8],
    keys: Keys,
    place: u8,
    event: &[u8],
    out: &mut [u8],
) -> Result<u32, ConsoleRefusal>
    requires { KeysOf (Some keys) table.old }
    ensures { as_left result table.new out.new ≡ console_left table.old (console_of (held_table table.old) place event.now out.old) }
{
    let (target, event) = lead(keys, place, event)?;
    match target {
        Target::Place(k) => to_place(table, k, event, out),
        Target::Everywhere => to_all(table, event, out),
    }
}

// One event for the console: the table goes on and the messages are in out, or nothing is changed.
#[unsafe(no_mangle)]
pub extern "C" fn callcontrol_console_step(
    table: &mut [u8],
    place: u8,
    event: &[u8],
    out: &mut [u8],
) -> u32
    ensures { ◌≡◌ {A = TableLeft} (record { result = result; table = table.new; out = out.new }) (console_host_step table.old place event.now out.old) }
{
    let Some(keys) = table_keys(table) else {
        return ANSWER;
    };
    match step_of(table, keys, place, event, out) {
        Ok(count) => count,
        Err(refusal) => refused(refusal.number(), refusal.place()),
    }
}
