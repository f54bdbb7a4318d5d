// The letters of a record's body, by their width, and the numbers that each may stand for.
ghost use Rattle.std.specs.Prelude.{◌≡◌};
ghost use Rattle.records.specs.Letters.{is_timer, is_direct_timer, fits, slots_fit, Letter};

// Letters of one byte.
#[derive(Clone, Copy)]
pub enum Byte {
    // Grant: 0 granted, 1 not granted, 2 queued, 3 granted to another.
    G,
    // Mode: 0 simplex, 1 duplex.
    D,
    // Whether permission to transmit is asked for, 0 or 1.
    Q,
    // Whether T310 starts anew, 0 or 1.
    R,
    // TX request: 1 demand, 0 cease. D-TX CONTINUE: 1 with the plane of before, 0 without.
    K,
    // T310 code, 0 to 15.
    O,
    // T310 code that may be absent, which is 16: only in D-INFO and D-CALL RESTORE.
    O16,
    // Cause: 1 user, 2 timer, 3 network, 4 transfer failed.
    C,
    // Plane: 1 transmit, 2 receive, 3 both, 4 off.
    P,
    // What TX indication tells, 0 to 8.
    X,
    // Slots per frame, 1 to 4.
    S,
    // A place of the console, 0 to 7.
    Y,
    // Verdict on a channel allocation: 0 accept, 1 reject, 2 ignore. DMA-REPORT: 0 sent, 1 busy, 2 unknown.
    V,
    // Any byte: grades of service and attempts, of direct mode.
    Any,
}

// Letters of two bytes.
#[derive(Clone, Copy)]
pub enum Word {
    // Identifier of a call, 1 to 16383.
    I,
    // Identifier that may be 0, the dummy: only where a call is released.
    I0,
    // Timer, one of seven.
    N,
    // Number of a question, 0 to 65535.
    U,
    // Timer of direct mode, 303 or 311.
    N2,
}

// Letters of four bytes.
#[derive(Clone, Copy)]
pub enum Long {
    // Address, 0 to 16777215; 0 is unknown.
    A,
    // Address that must be known: only where a call is asked for.
    A1,
}

// Timers of call control.
#[tactic(auto, unfolding(crate::specs::Letters::is_timer))]
fn is_timer(v: u16) -> bool
    ensures { result ≡ is_timer v }
{
    matches!(v, 301 | 302 | 303 | 306 | 308 | 310 | 311)
}

// Timers of direct mode.
#[tactic(auto, unfolding(crate::specs::Letters::is_direct_timer))]
fn is_direct_timer(v: u16) -> bool
    ensures { result ≡ is_direct_timer v }
{
    matches!(v, 303 | 311)
}

// Whether a letter may stand for a number, at each width.

#[tactic(auto, unfolding(crate::specs::Letters::within))]
pub fn byte_fits(letter: Byte, v: u8) -> bool
    ensures { result ≡ fits (Letter.byte letter) v }
{
    match letter {
        Byte::G => matches!(v, 0..=3),
        Byte::D => matches!(v, 0..=1),
        Byte::Q => matches!(v, 0..=1),
        Byte::R => matches!(v, 0..=1),
        Byte::K => matches!(v, 0..=1),
        Byte::O => matches!(v, 0..=15),
        Byte::O16 => matches!(v, 0..=16),
        Byte::C => matches!(v, 1..=4),
        Byte::P => matches!(v, 1..=4),
        Byte::X => matches!(v, 0..=8),
        Byte::S => matches!(v, 1..=4),
        Byte::Y => matches!(v, 0..=7),
        Byte::V => matches!(v, 0..=2),
        Byte::Any => true,
    }
}

// Whether slots at the end of a body may be so: 0 where the body carries none.
pub fn slots_fit(slots: u8) -> bool
    ensures { result ≡ slots_fit slots }
{
    slots == 0 || byte_fits(Byte::S, slots)
}

#[tactic(auto, unfolding(crate::specs::Letters::within))]
pub fn word_fits(letter: Word, v: u16) -> bool
    ensures { result ≡ fits (Letter.word letter) v }
{
    match letter {
        Word::I => matches!(v, 1..=16383),
        Word::I0 => matches!(v, 0..=16383),
        Word::N => is_timer(v),
        Word::U => true,
        Word::N2 => is_direct_timer(v),
    }
}

#[tactic(auto, unfolding(crate::specs::Letters::within))]
pub fn long_fits(letter: Long, v: u32) -> bool
    ensures { result ≡ fits (Letter.long letter) v }
{
    match letter {
        Long::A => matches!(v, 0..=16777215),
        Long::A1 => matches!(v, 1..=16777215),
    }
}
