// BREAK and RESUME on a lent table of call records: each place is read, takes its turn, and its record is stored back at its place.
ghost use Rattle.std.specs.Prelude.{◌≡◌, ◌+◌, ◌<◌, ◌≤◌, length, set};
ghost use Rattle.callcontrol.specs.Writing.{bytes_of};
ghost use Rattle.console.specs.declared.route.Aim.{Aim};
ghost use Rattle.console.specs.Table.{call_at};
ghost use Rattle.console.specs.Route.{aim_of};
ghost use Rattle.console.specs.Console.{part, next_of, OneMore, LaidAll, writes_from};

use crate::console::{SoFar, turn};
use callcontrol::call::Call;
use records::events::Event;

// The record at a place. It is read and stored by functions of a lent slice since the form of the request says so (docs/DECISIONS.md).
fn call_at(table: &[Call], k: usize) -> Call
    requires { k < length table.now }
    ensures { result ≡ call_at table.now k }
{
    table[k]
}

// A record stored at a place.
fn store_at(table: &mut [Call], k: usize, call: Call)
    requires { k < length table.old }
    ensures { table.new ≡ set table.old k call }
{
    table[k] = call;
}

// The turn of a place of the lent table.
fn step_at(table: &mut [Call], k: usize, event: Event, passed: SoFar, own: &mut [u8]) -> SoFar
    requires { (k < length table.old) × (aim_of event ≡ Aim.Every) × (k < 8) × (passed.size + length (bytes_of (part k (call_at table.old k) event)) ≤ length own.old) }
    ensures { (table.new ≡ set table.old k (next_of event (call_at table.old k))) × OneMore result.upto result.size own.new k (call_at table.old k) event passed own.old }
{
    let mut call = call_at(table, k);
    let passed = turn(&mut call, k, event, passed, own);
    store_at(table, k, call);
    passed
}

// The turns of all places, where there is room for what they write: the table of the eight records is lent place by place.
pub fn put_all(calls: &mut [Call; 8], event: Event, own: &mut [u8]) -> SoFar
    requires { (aim_of event ≡ Aim.Every) × (length (bytes_of (writes_from 0 calls.old event)) ≤ length own.old) }
    ensures { LaidAll result calls.new own.new calls.old event own.old }
{
    let mut passed = SoFar { upto: 0, size: 0 };
    for k in 0..8 {
        passed = step_at(calls, k, event, passed, own);
    }
    passed
}
