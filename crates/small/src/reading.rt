// An event's numbers from one table of events and one of letters: what the record reader of the first engine takes and refuses.
ghost use Rattle.std.specs.Option.{option_map_or, unwrap_or};
ghost use Rattle.std.specs.Prelude.{IfSome, slice_get, cond, eqb, ◌≡◌, true, ◌+◌, ◌-◌, ◌%◌, ◌<◌, ◌≤◌, length};
ghost use Rattle.records.specs.Bytes.{number};
ghost use Rattle.records.specs.Tables.{read, as_read};
ghost use Rattle.records.specs.Events.{events};
ghost use Rattle.small.specs.Flat.{EXPIRY, place};
ghost use Rattle.small.specs.Entry.{spell};
ghost use Rattle.small.specs.Reading.{fill, total, caps, Under, as_filled, filled, with_slots, one_more, letters_for, sized_well, timer_place, late_kind, flat_by, body_by, hint_of, kind_by, flatted};

use crate::entry::{FIFTH, FOURTH, KIND, Letters, SECOND, SIZE, THIRD};
use crate::flat::{D_CALL_PROCEEDING, EXPIRY, EXPIRY_308, EXPIRY_311, Flat, REPORT_SENT, Timer};
use callcontrol::call::Call;
use records::bodies::{Unreadable, kind_in};
use records::fields::{long_at, word_at};

// The paper's letters by number, since an entry of the table is a sum of them; 0 is none. One with an exception to its range is a letter of its own.
// The numbers are places in LETTERS, which has the ranges: messages have other letters, and number them by where their values stand.
const A1: u32 = 1;

const A: u32 = 2;

const I: u32 = 3;

const I0: u32 = 4;

const N: u32 = 5;

const D: u32 = 6;

const Q: u32 = 7;

const K: u32 = 8;

const G: u32 = 9;

const R: u32 = 10;

const O: u32 = 11;

const O16: u32 = 12;

const S: u32 = 13;

// The bit of an event whose letters one more may follow, the slots; and the slots as the fourth letter and the fifth.
const OR_WITH_SLOTS: u32 = 0x80000000;

const S_FOURTH: u32 = S * FOURTH;

const S_FIFTH: u32 = S * FIFTH;

// MODIFY request, taken no more whatever its body.
const RETIRED: u16 = 0x105;

// The kinds by number.
const IS_SETUP_REQUEST: u32 = 0x101 * KIND;

const IS_SETUP_RESPONSE: u32 = 0x102 * KIND;

const IS_RELEASE_REQUEST: u32 = 0x103 * KIND;

const IS_TX_REQUEST: u32 = 0x104 * KIND;

const IS_D_CALL_PROCEEDING: u32 = 0x201 * KIND;

const IS_D_ALERT: u32 = 0x202 * KIND;

const IS_D_CONNECT: u32 = 0x203 * KIND;

const IS_D_CONNECT_ACKNOWLEDGE: u32 = 0x204 * KIND;

const IS_D_SETUP: u32 = 0x205 * KIND;

const IS_D_INFO: u32 = 0x206 * KIND;

const IS_D_TX_GRANTED: u32 = 0x207 * KIND;

const IS_D_TX_CEASED: u32 = 0x208 * KIND;

const IS_D_TX_INTERRUPT: u32 = 0x209 * KIND;

const IS_D_TX_WAIT: u32 = 0x20a * KIND;

const IS_D_TX_CONTINUE: u32 = 0x20b * KIND;

const IS_D_CALL_RESTORE: u32 = 0x20c * KIND;

const IS_D_DISCONNECT: u32 = 0x20d * KIND;

const IS_D_RELEASE: u32 = 0x20e * KIND;

const IS_REPORT_SENT: u32 = 0x301 * KIND;

const IS_REPORT_FAILED: u32 = 0x302 * KIND;

const IS_BREAK: u32 = 0x303 * KIND;

const IS_RESUME: u32 = 0x304 * KIND;

const IS_EXPIRY: u32 = 0x401 * KIND;

// No event has this one.
const NO_KIND: u32 = 0x7ff * KIND;

// The paper's table of events, in its order: the first entry is no kind's, and behind it is one for each.
static EVENTS: [u32; 24] = [
    NO_KIND + 4 * SIZE,
    IS_SETUP_REQUEST + 10 * SIZE + A1 + D * SECOND + Q * THIRD + OR_WITH_SLOTS,
    IS_SETUP_RESPONSE + 4 * SIZE,
    IS_RELEASE_REQUEST + 4 * SIZE,
    IS_TX_REQUEST + 5 * SIZE + K,
    IS_D_CALL_PROCEEDING + 6 * SIZE + I,
    IS_D_ALERT + 6 * SIZE + I,
    IS_D_CONNECT + 9 * SIZE + I + G * SECOND + D * THIRD + O * FOURTH + OR_WITH_SLOTS,
    IS_D_CONNECT_ACKNOWLEDGE + 8 * SIZE + I + G * SECOND + O * THIRD,
    IS_D_SETUP + 11 * SIZE + I + A * SECOND + D * THIRD,
    IS_D_INFO + 9 * SIZE + I + R * SECOND + O16 * THIRD + D * FOURTH + OR_WITH_SLOTS,
    IS_D_TX_GRANTED + 7 * SIZE + I + G * SECOND,
    IS_D_TX_CEASED + 6 * SIZE + I,
    IS_D_TX_INTERRUPT + 7 * SIZE + I + G * SECOND,
    IS_D_TX_WAIT + 6 * SIZE + I,
    IS_D_TX_CONTINUE + 7 * SIZE + I + K * SECOND,
    IS_D_CALL_RESTORE + 9 * SIZE + I + G * SECOND + R * THIRD + O16 * FOURTH,
    IS_D_DISCONNECT + 6 * SIZE + I0,
    IS_D_RELEASE + 6 * SIZE + I0,
    IS_REPORT_SENT + 4 * SIZE,
    IS_REPORT_FAILED + 4 * SIZE,
    IS_BREAK + 4 * SIZE,
    IS_RESUME + 4 * SIZE,
    IS_EXPIRY + 6 * SIZE + N,
];

// A letter: where its value goes, how many bytes it takes, and its least (0 or 1) and its most.
const INTO: u32 = 0x10000000;

const BYTES: u32 = 0x2000000;

const FROM_0: u32 = 0;

const FROM_1: u32 = 0x1000000;

// The values of an event by place.
const ID: usize = 0;

const ADDRESS: usize = 1;

const MODE: usize = 2;

const ASK: usize = 3;

const VALUE: usize = 4;

const RESET: usize = 5;

const CODE: usize = 6;

const TIMER: usize = 7;

const SLOTS: usize = 8;

const INTO_ID: u32 = (ID as u32) * INTO;

const INTO_ADDRESS: u32 = (ADDRESS as u32) * INTO;

const INTO_MODE: u32 = (MODE as u32) * INTO;

const INTO_ASK: u32 = (ASK as u32) * INTO;

const INTO_VALUE: u32 = (VALUE as u32) * INTO;

const INTO_RESET: u32 = (RESET as u32) * INTO;

const INTO_CODE: u32 = (CODE as u32) * INTO;

const INTO_TIMER: u32 = (TIMER as u32) * INTO;

const INTO_SLOTS: u32 = (SLOTS as u32) * INTO;

// No letter.
const UNUSED: u32 = BYTES;

// The letters by number. Which numbers a timer may have is looked at when all are read.
static LETTERS: [u32; 16] = [
    UNUSED,
    // a, first where it may not be 0.
    INTO_ADDRESS + 4 * BYTES + FROM_1 + 16777215,
    INTO_ADDRESS + 4 * BYTES + FROM_0 + 16777215,
    // i, then where it may be 0; and n.
    INTO_ID + 2 * BYTES + FROM_1 + 16383,
    INTO_ID + 2 * BYTES + FROM_0 + 16383,
    INTO_TIMER + 2 * BYTES + FROM_0 + 65535,
    // d, q, k, g and r.
    INTO_MODE + BYTES + FROM_0 + 1,
    INTO_ASK + BYTES + FROM_0 + 1,
    INTO_ASK + BYTES + FROM_0 + 1,
    INTO_VALUE + BYTES + FROM_0 + 3,
    INTO_RESET + BYTES + FROM_0 + 1,
    // o, then where it may be 16; and s.
    INTO_CODE + BYTES + FROM_0 + 15,
    INTO_CODE + BYTES + FROM_0 + 16,
    INTO_SLOTS + BYTES + FROM_1 + 4,
    UNUSED,
    UNUSED,
];

// The families of kinds behind the user's, and the number of the first event of each.
const NETWORK: u16 = 2;

const LINK: u16 = 3;

const TIMERS: u16 = 4;

const FIRST_OF_NETWORK: usize = D_CALL_PROCEEDING as usize;

const FIRST_OF_LINK: usize = REPORT_SENT as usize;

const FIRST_OF_TIMERS: usize = EXPIRY as usize;

// What stands for a timer in an event that brings none.
const SOME_TIMER: u32 = 301;

// Which of the entries a kind could be: its family's first, and its number in the family.
#[tactic(auto, unfolding(crate::specs::Reading::hint_of))]
fn hint(family: u16) -> usize
    ensures value { result ≡ hint_of family }
    ensures upper_bound { result ≤ 22 }
{
    match family {
        NETWORK => FIRST_OF_NETWORK,
        LINK => FIRST_OF_LINK,
        TIMERS => FIRST_OF_TIMERS,
        _ => 0,
    }
}

#[tactic(auto, unfolding(records::specs::Bytes::number))]
fn number_at(s: &[u8], at: usize, width: usize) -> u32
    requires { (0 < width) × (width ≤ 4) × ((width - 2) % 2 ≡ 0) × (at + width ≤ length s.now) × (length s.now ≤ 16) }
    ensures { result ≡ number width s.now at }
{
    match width {
        1 => s[at] as u32,
        2 => word_at(s, at) as u32,
        _ => long_at(s, at),
    }
}

// The values into their slots, or the place of the first that is wrong.
fn fill(letters: u32, v: &mut [u32; 9], s: &[u8]) -> Result<(), Unreadable>
    requires { (letters < 0x100000) × (4 + total (spell 5 letters) ≡ length s.now) × (length s.now ≤ 16) × Under v.old caps }
    ensures v_after { as_filled result v.new ≡ filled (fill (spell 5 letters) v.old s.now 4) }
    ensures under { Under v.new caps }
{
    let mut at: usize = 4;
    for letter in (Letters { left: letters }) {
        let l = LETTERS[letter as usize];
        let width = (l / BYTES % 8) as usize;
        let x = number_at(s, at, width);
        if x < l / FROM_1 % 2 || l % FROM_1 < x {
            return Err(Unreadable::BadBody(at as u8));
        }
        v[(l / INTO % 16) as usize] = x;
        at += width;
    }
    Ok(())
}

// A timer by its number. A match: a search among the seven numbers would find a place, of which a timer would still be made.
#[tactic(auto, unfolding(crate::specs::Reading::timer_place))]
fn timer_of(n: u32) -> Option<Timer>
    ensures { option_map_or place result 7 ≡ timer_place n }
{
    match n {
        301 => Some(Timer::T301),
        302 => Some(Timer::T302),
        303 => Some(Timer::T303),
        306 => Some(Timer::T306),
        308 => Some(Timer::T308),
        310 => Some(Timer::T310),
        311 => Some(Timer::T311),
        _ => None,
    }
}

// An expiry's number by its timer.
#[tactic(auto, unfolding(crate::specs::Reading::late_kind))]
fn late_kind(timer: Timer) -> u64
    ensures { result ≡ late_kind (place timer) }
{
    match timer {
        Timer::T308 => EXPIRY_308,
        Timer::T311 => EXPIRY_311,
        _ => EXPIRY,
    }
}

// Another event's number stays.
fn kind_with(kind: u64, timer: Timer) -> u64
    ensures { result ≡ cond (eqb kind EXPIRY) (late_kind (place timer)) kind }
{
    if kind == EXPIRY {
        late_kind(timer)
    } else {
        kind
    }
}

fn flat_by(kind: u64, timer: Timer, v: &[u32; 9]) -> Flat
    requires { Under v.now caps }
    ensures { result ≡ flat_by kind (place timer) v.now }
{
    Flat {
        kind,
        address: v[ADDRESS],
        id: v[ID] as u16,
        mode: v[MODE] as u8,
        ask: v[ASK] as u8,
        value: v[VALUE] as u8,
        reset: v[RESET] as u8,
        code: v[CODE] as u8,
        slots: v[SLOTS] as u8,
        timer,
    }
}

// Three or four letters with the slots behind them.
#[tactic(auto, unfolding(crate::specs::Reading::with_slots))]
fn with_slots(letters: u32) -> u32
    requires { letters < 0x10000 }
    ensures value { result ≡ with_slots letters }
    ensures upper_bound { result < 0x100000 }
{
    if letters < FOURTH {
        letters + S_FOURTH
    } else {
        letters + S_FIFTH
    }
}

// A body with the slots, where the event may have them.
#[tactic(auto, unfolding(crate::specs::Reading::one_more))]
fn one_more(entry: u32, size: usize, short: usize) -> bool
    requires { short < 16 }
    ensures { result ≡ one_more entry size short }
{
    (OR_WITH_SLOTS <= entry) & (size == short + 1)
}

// The letters of a body of some size, if the event has one of that size.
#[tactic(auto, unfolding(crate::specs::Reading::letters_for))]
fn letters_for(entry: u32, size: usize) -> Option<u32>
    ensures value { unwrap_or result 0x100000 ≡ letters_for entry size }
    ensures upper_bound { IfSome result (λ l. l < 0x100000) }
{
    let short = (entry / SIZE % 16) as usize;
    if size == short {
        return Some(entry % SIZE);
    }
    if one_more(entry, size, short) {
        return Some(with_slots(entry % SIZE));
    }
    None
}

#[tactic(auto, unfolding(crate::specs::Reading::flat_at))]
fn read_body(entry: u32, kind: u64, call: Call, s: &[u8]) -> Result<Flat, Unreadable>
    requires { sized_well entry ≡ true }
    ensures { as_read result ≡ body_by entry kind call s.now }
{
    let letters = letters_for(entry, s.len()).ok_or(Unreadable::BadBody(2))?;
    // An array and no struct: a letter of the table says by number where its value goes.
    let mut v: [u32; 9] = [
        call.id as u32,
        call.address,
        call.mode as u32,
        call.asked as u32,
        0,
        0,
        call.code as u32,
        SOME_TIMER,
        0,
    ];
    fill(letters, &mut v, s)?;
    let timer = timer_of(v[TIMER]).ok_or(Unreadable::BadBody(4))?;
    Ok(flat_by(kind_with(kind, timer), timer, &v))
}

// An entry by its place, if there is one.
fn entry_at(events: &[u32], place: usize) -> Option<u32>
    ensures { result ≡ slice_get events.now place }
{
    events.get(place).copied()
}

#[tactic(auto, unfolding(crate::specs::Reading::place_of))]
fn read_kind(n: u16, call: Call, s: &[u8]) -> Result<Flat, Unreadable>
    ensures { as_read result ≡ kind_by n call s.now }
{
    if n == RETIRED {
        return Err(Unreadable::Retired);
    }
    let place = hint(n / 256 % 8) + (n % 256) as usize;
    let entry = entry_at(&EVENTS, place).ok_or(Unreadable::UnknownKind)?;
    if entry / KIND % 2048 != n as u32 {
        return Err(Unreadable::UnknownKind);
    }
    read_body(entry, (place as u64) - 1, call, s)
}

pub fn read_flat(call: Call, s: &[u8]) -> Result<Flat, Unreadable>
    ensures { as_read result ≡ flatted call (read events s.now) }
{
    let kind = kind_in(s).ok_or(Unreadable::BadLength)?;
    read_kind(kind, call, s)
}
