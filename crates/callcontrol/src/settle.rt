// A row's orders carried out: its number taken apart, part by part, into the draft that it stands for. Each rule that the paper
// states once lives in one function here.

ghost use Rattle.std.specs.Prelude.{◌≡◌, ◌<◌, ◌/◌, ◌%◌};
ghost use Rattle.callcontrol.specs.Settle.{has, timing, expire_timer, stop_timer, start_timer, stop_if, start_if, limit_timer, limit_if, expired_by, ordered_by, plane_timer, timing_by, configure_by, plane_by, state_by, kept_by, path_by, sent_by, next_by, settled, as_draft, EXPIRED_301, PLANE_1, UNSENT, UP};

use crate::call::{Call, Path, State, T301, T302, T303, T306, T308, T310, T311};
use crate::draft::Drafted;
use crate::row::{
    BROKEN, CALL_ACTIVE, CALL_DISCONNECT, EXPIRED, EXPIRED_301, EXPIRED_302, EXPIRED_303,
    EXPIRED_306, EXPIRED_308, EXPIRED_310, EXPIRED_311, KEPT_PLANE, MO_CALL_SETUP, MT_CALL_SETUP,
    OVER, PATH, PLANE, RESTORING, Row, SAME_PLANE, SENDING, SENT, START_301, START_310, STATE,
    STAY, STOP_301, UNSENT, UP, WAIT, part,
};

// Whether an order of one bit is in the sum.
#[tactic(auto, unfolding(crate::specs::Settle::has))]
pub(crate) fn has(orders: u64, bit: u64) -> bool
    requires { 0 < bit }
    ensures { result ≡ has orders bit }
{
    orders / bit % 2 == 1
}

// The timers that run, and the orders to stop and to start some. A method takes the arrays out and puts them back: written in place
// they stay in memory, and the step takes 72 bytes of stack more, above what tests/tests/step_stays.rs allows.
#[derive(Clone, Copy, Debug, PartialEq, Eq)]
pub struct Timing {
    pub running: [bool; 7],
    pub stops: [bool; 7],
    pub starts: [bool; 7],
}

impl Timing {
    // A call of its own: written out into its caller it makes the step 983 bytes longer and takes 16 bytes of stack more.
    #[tactic(auto, unfolding(crate::specs::Settle::timing))]
    #[inline(never)]
    fn new(running: [bool; 7]) -> Self
        ensures { result ≡ timing running }
    {
        Timing {
            running,
            stops: [false; 7],
            starts: [false; 7],
        }
    }

    // An expired timer gets no STOP.
    #[tactic(auto, unfolding(crate::specs::Settle::expire_timer))]
    fn expire(mut self, k: usize) -> Self
        requires { k < 7 }
        ensures { result ≡ expire_timer k self }
    {
        let mut t = self.running;
        t[k] = false;
        self.running = t;
        self
    }

    // STOP is written only for a running timer.
    #[tactic(auto, unfolding(crate::specs::Settle::stop_timer))]
    fn stop(mut self, k: usize) -> Self
        requires { k < 7 }
        ensures { result ≡ stop_timer k self }
    {
        let mut t = self.running;
        let mut s = self.stops;
        if t[k] {
            s[k] = true;
        }
        t[k] = false;
        self.running = t;
        self.stops = s;
        self
    }

    // Starting a running timer writes START only, also in a row that says stop all.
    #[tactic(auto, unfolding(crate::specs::Settle::start_timer))]
    fn start(mut self, k: usize) -> Self
        requires { k < 7 }
        ensures { result ≡ start_timer k self }
    {
        let mut t = self.running;
        let mut s = self.stops;
        let mut g = self.starts;
        t[k] = true;
        s[k] = false;
        g[k] = true;
        self.running = t;
        self.stops = s;
        self.starts = g;
        self
    }

    #[tactic(auto, unfolding(crate::specs::Settle::stop_if))]
    fn stop_if(self, ordered: bool, k: usize) -> Self
        requires { k < 7 }
        ensures { result ≡ stop_if ordered k self }
    {
        if ordered { self.stop(k) } else { self }
    }

    #[tactic(auto, unfolding(crate::specs::Settle::start_if))]
    fn start_if(self, ordered: bool, k: usize) -> Self
        requires { k < 7 }
        ensures { result ≡ start_if ordered k self }
    {
        if ordered { self.start(k) } else { self }
    }

    // T310 with the stored code: it runs then, and START is written, unless the code is 0, which is no limit.
    #[tactic(auto, unfolding(crate::specs::Settle::limit_timer))]
    fn limit(mut self, code: u8) -> Self
        ensures { result ≡ limit_timer code self }
    {
        let mut t = self.running;
        let mut s = self.stops;
        let mut g = self.starts;
        let limited = code != 0;
        let ran = t[T310];
        s[T310] = !limited & (ran | s[T310]);
        t[T310] = limited;
        g[T310] = limited;
        self.running = t;
        self.stops = s;
        self.starts = g;
        self
    }

    #[tactic(auto, unfolding(crate::specs::Settle::limit_if))]
    fn limit_if(self, ordered: bool, code: u8) -> Self
        ensures { result ≡ limit_if ordered code self }
    {
        if ordered { self.limit(code) } else { self }
    }

    #[tactic(auto, unfolding(crate::specs::Settle::expired_by))]
    fn expired_by(self, orders: u64) -> Self
        ensures { result ≡ expired_by (orders / EXPIRED_301 % 16) self }
    {
        match part(orders, EXPIRED) {
            EXPIRED_301 => self.expire(T301),
            EXPIRED_302 => self.expire(T302),
            EXPIRED_303 => self.expire(T303),
            EXPIRED_306 => self.expire(T306),
            EXPIRED_308 => self.expire(T308),
            EXPIRED_310 => self.expire(T310),
            EXPIRED_311 => self.expire(T311),
            _ => self,
        }
    }

    // The stops, then the starts; most rows have neither.
    fn ordered_by(self, orders: u64, code: u8) -> Self
        ensures { result ≡ ordered_by orders code self }
    {
        if orders / STOP_301 % 0x10000 == 0 {
            return self;
        }
        let mut timing = self;
        for k in 0..7 {
            timing = timing.stop_if(has(orders, STOP_301 << k), k);
        }
        for k in 0..5 {
            timing = timing.start_if(has(orders, START_301 << k), k);
        }
        timing.limit_if(has(orders, START_310), code)
    }

    // Plane 1 starts T311, another plane stops it; the present plane told once more leaves it as it is.
    #[tactic(auto, unfolding(crate::specs::Settle::plane_timer))]
    fn with_plane(self, orders: u64, configure: u8) -> Self
        ensures { result ≡ plane_timer (orders / PLANE_1 % 16) configure self }
    {
        match part(orders, PLANE) {
            0 | SAME_PLANE => self,
            _ if configure == 1 => self.start(T311),
            _ => self.stop(T311),
        }
    }
}

#[tactic(auto, unfolding(crate::specs::Settle::timing_by))]
pub(crate) fn timing_by(orders: u64, code: u8, timers: [bool; 7], configure: u8) -> Timing
    ensures { result ≡ timing_by orders code timers configure }
{
    Timing::new(timers)
        .expired_by(orders)
        .ordered_by(orders, code)
        .with_plane(orders, configure)
}

// The plane that CONFIGURE tells, 0 for none.
#[tactic(auto, unfolding(crate::specs::Settle::configure_by))]
fn configure_by(orders: u64, call: Call) -> u8
    ensures { result ≡ configure_by (orders / PLANE_1 % 16) call }
{
    match part(orders, PLANE) {
        SAME_PLANE => call.plane,
        KEPT_PLANE => call.kept,
        _ => (orders / PLANE % 16) as u8,
    }
}

// The plane then.
#[tactic(auto, unfolding(crate::specs::Settle::plane_by))]
fn plane_by(orders: u64, configure: u8, held: u8) -> u8
    ensures { result ≡ plane_by (orders / PLANE_1 % 16) configure held }
{
    if part(orders, PLANE) == 0 {
        held
    } else {
        configure
    }
}

#[tactic(auto, unfolding(crate::specs::Settle::state_by))]
fn state_by(orders: u64, held: State) -> State
    ensures { result ≡ state_by (orders % 16) held }
{
    match part(orders, STATE) {
        MO_CALL_SETUP => State::MoCallSetup,
        MT_CALL_SETUP => State::MtCallSetup,
        CALL_ACTIVE => State::CallActive,
        WAIT => State::Wait,
        CALL_DISCONNECT => State::CallDisconnect,
        _ => held,
    }
}

// Going to WAIT keeps the plane; any other change of state sets the kept plane to 4, which it is outside WAIT already.
#[tactic(auto, unfolding(crate::specs::Settle::kept_by))]
fn kept_by(orders: u64, call: Call) -> u8
    ensures { result ≡ kept_by (orders % 16) call }
{
    match part(orders, STATE) {
        STAY => call.kept,
        WAIT => call.plane,
        _ => Call::OFF,
    }
}

#[tactic(auto, unfolding(crate::specs::Settle::path_by))]
fn path_by(orders: u64, held: Path) -> Path
    ensures { result ≡ path_by (orders / UP % 16) held }
{
    match part(orders, PATH) {
        UP => Path::Up,
        BROKEN => Path::Broken,
        RESTORING => Path::Restoring,
        _ => held,
    }
}

#[tactic(auto, unfolding(crate::specs::Settle::sent_by))]
fn sent_by(orders: u64, held: u8) -> u8
    ensures { result ≡ sent_by (orders / UNSENT % 16) held }
{
    match part(orders, SENDING) {
        UNSENT => 0,
        SENT => 1,
        _ => held,
    }
}

#[tactic(auto, unfolding(crate::specs::Settle::next_by))]
pub fn next_by(call: Call, row: Row, configure: u8, timers: [bool; 7]) -> Call
    ensures { result ≡ next_by call row configure timers }
{
    let n = row.orders;
    let s = call.state;
    let p = call.path;
    if part(n, STATE) == OVER {
        return Call::fresh();
    }
    let state = state_by(n, s);
    let path = path_by(n, p);
    Call {
        state,
        id: row.id,
        address: row.address,
        mode: row.mode,
        asked: row.asked,
        sent: sent_by(n, call.sent),
        path,
        plane: plane_by(n, configure, call.plane),
        kept: kept_by(n, call),
        code: row.code,
        slots: row.slots,
        timers,
    }
}

// The draft that a row stands for.
#[tactic(auto, unfolding(crate::specs::Settle::settled))]
pub(crate) fn settle(call: Call, row: Row) -> Drafted
    ensures { as_draft result ≡ settled call row }
{
    let n = row.orders;
    let timers = call.timers;
    let configure = configure_by(n, call);
    let timing = timing_by(n, row.code, timers, configure);
    let running = timing.running;
    let stops = timing.stops;
    let starts = timing.starts;
    let next = next_by(call, row, configure, running);
    Drafted {
        call: next,
        stops,
        starts,
        configure,
        row,
    }
}
