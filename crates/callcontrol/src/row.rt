// What a row says: a number, and beside it the values that differ from call to call. The number is a sum of the orders below. Each part
// of a row has a digit of its own (hexadecimal), or a bit for each timer, so that the orders of different parts add up to a sentence of
// the paper: `STAY + SENT + STOP_303 + START_302 + PROCEED`.
ghost use Rattle.std.specs.Prelude.{◌≡◌, ◌*◌, ◌/◌, ◌%◌, ◌<◌, ◌≤◌};
ghost use Rattle.callcontrol.specs.Settle.{row_of};

use crate::call::Call;

// The address stands before the identifier because the compiler copies such a row field by field; the other way round it copies eight
// bytes at once and takes them apart again, which costs a fifth of the code.
#[derive(Clone, Copy, Debug, PartialEq, Eq)]
pub struct Row {
    // The sum.
    pub orders: u64,
    // What the call holds then.
    pub address: u32,
    pub id: u16,
    pub mode: u8,
    pub asked: u8,
    pub code: u8,
    pub slots: u8,
    // What a message tells beside that: a cause, a grant, how a transmission stands, or the slots that a SETUP request carries.
    pub value: u8,
}

// Where each part's digit stands in the sum.
pub(crate) const STATE: u64 = 0x1;

pub(crate) const PATH: u64 = 0x10;

pub(crate) const SENDING: u64 = 0x100;

pub(crate) const PLANE: u64 = 0x1000;

pub(crate) const PDU: u64 = 0x10000;

pub(crate) const USER: u64 = 0x100000;

pub(crate) const EXPIRED: u64 = 0x100000000000;

// The state. Every row has one of these.
pub const STAY: u64 = 0x1;

pub const MO_CALL_SETUP: u64 = 0x2;

pub const MT_CALL_SETUP: u64 = 0x3;

pub const CALL_ACTIVE: u64 = 0x4;

// Also keeps the plane to go back to.
pub const WAIT: u64 = 0x5;

pub const CALL_DISCONNECT: u64 = 0x6;

// The call has ended: the fresh record.
pub const OVER: u64 = 0x7;

// The path.
pub const UP: u64 = 0x10;

pub const BROKEN: u64 = 0x20;

pub const RESTORING: u64 = 0x30;

// Whether U-SETUP or U-DISCONNECT is known to be sent.
pub const UNSENT: u64 = 0x100;

pub const SENT: u64 = 0x200;

// The plane; the present one told once more; the one kept in a pause.
pub const PLANE_1: u64 = 0x1000;

pub const PLANE_2: u64 = 0x2000;

pub const PLANE_3: u64 = 0x3000;

pub const PLANE_OFF: u64 = 0x4000;

pub const SAME_PLANE: u64 = 0x5000;

pub const KEPT_PLANE: u64 = 0x6000;

// The U-PDU.
pub const U_SETUP: u64 = 0x10000;

pub const U_CONNECT: u64 = 0x20000;

pub const U_DISCONNECT: u64 = 0x30000;

pub const U_RELEASE: u64 = 0x40000;

pub const U_TX_DEMAND: u64 = 0x50000;

pub const U_TX_CEASED: u64 = 0x60000;

pub const U_CALL_RESTORE: u64 = 0x70000;

// The user primitive.
pub const SETUP_INDICATION: u64 = 0x100000;

pub const SETUP_CONFIRM: u64 = 0x200000;

pub const PROCEED: u64 = 0x300000;

pub const ALERT: u64 = 0x400000;

pub const COMPLETE: u64 = 0x500000;

pub const RELEASE_INDICATION: u64 = 0x600000;

pub const RELEASE_CONFIRM: u64 = 0x700000;

pub const TX_INDICATION: u64 = 0x800000;

pub const MODIFY_INDICATION: u64 = 0x900000;

pub const CANCEL: u64 = 0x1000000;

// Timers to stop, and to start. T311 starts and stops with the plane.
pub const STOP_301: u64 = 0x10000000;

pub const STOP_302: u64 = 0x20000000;

pub const STOP_303: u64 = 0x40000000;

pub const STOP_306: u64 = 0x80000000;

pub const STOP_308: u64 = 0x100000000;

pub const STOP_310: u64 = 0x200000000;

pub const STOP_311: u64 = 0x400000000;

pub const STOP_ALL: u64 = 0x7F0000000;

pub const START_301: u64 = 0x1000000000;

pub const START_302: u64 = 0x2000000000;

pub const START_303: u64 = 0x4000000000;

pub const START_306: u64 = 0x8000000000;

pub const START_308: u64 = 0x10000000000;

pub const START_310: u64 = 0x20000000000;

// The timer that expired.
pub const EXPIRED_301: u64 = 0x100000000000;

pub const EXPIRED_302: u64 = 0x200000000000;

pub const EXPIRED_303: u64 = 0x300000000000;

pub const EXPIRED_306: u64 = 0x400000000000;

pub const EXPIRED_308: u64 = 0x500000000000;

pub const EXPIRED_310: u64 = 0x600000000000;

pub const EXPIRED_311: u64 = 0x700000000000;

// The network has ended the call.
pub const ENDED: u64 = STOP_ALL + PLANE_OFF + RELEASE_INDICATION + OVER;

// The end that this side asked for.
pub const CONFIRMED: u64 = STOP_ALL + PLANE_OFF + RELEASE_CONFIRM + OVER;

// This side ends the call; such a row also clears asked.
pub const RELEASE: u64 = STOP_ALL
    + U_DISCONNECT
    + START_308
    + PLANE_OFF
    + UNSENT
    + UP
    + CALL_DISCONNECT;

// What a sum orders of one part, 0 where it orders nothing of it.
pub(crate) fn part(orders: u64, place: u64) -> u64
    requires { (0 < place) × (place ≤ 0x100000000000) }
    ensures { result ≡ orders / place % 16 * place }
{
    orders / place % 16 * place
}

impl Row {
    // A row that stores none of the values: the call keeps what it holds.
    pub(crate) fn of(call: Call, orders: u64, value: u8) -> Self
        ensures { result ≡ row_of call orders value }
    {
        Row {
            orders,
            id: call.id,
            address: call.address,
            mode: call.mode,
            asked: call.asked,
            code: call.code,
            slots: call.slots,
            value,
        }
    }
}
