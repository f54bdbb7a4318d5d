// The call record, and what makes it sound.
ghost use Rattle.std.specs.Prelude.{◌≡◌};
ghost use Rattle.callcontrol.specs.Call.{◌⇒◌, fresh_call, is_idle, is_active, is_wait, is_up, is_restoring, transmits, state_number, path_number, may_lack_id, all_stopped, in_range, as_fresh, timers_agree, state_agrees, sound};

// Where the call is. The numbers are those of a host's record.
#[derive(Clone, Copy, Debug, PartialEq, Eq)]
pub enum State {
    // IDLE: no call.
    Idle = 0,
    // MO-CALL-SETUP: the user asked for a call, and it is not connected yet.
    MoCallSetup = 1,
    // MT-CALL-SETUP: another party calls, and it is not connected yet.
    MtCallSetup = 2,
    // CALL-ACTIVE: the call is connected.
    CallActive = 3,
    // WAIT: the network has paused the call.
    Wait = 4,
    // CALL-DISCONNECT: this side has ended the call, and the network has not confirmed it.
    CallDisconnect = 5,
}

impl From<State> for u8 {
    ghost from_gives = { λ state number. number ≡ state_number state };

    fn from(state: State) -> u8 {
        state as u8
    }
}

// The radio path of a connected call, with the numbers of a host's record.
#[derive(Clone, Copy, Debug, PartialEq, Eq)]
pub enum Path {
    // The path is there.
    Up = 0,
    // The path is lost.
    Broken = 1,
    // A path is there again, and the network is asked to restore the call on it.
    Restoring = 2,
}

impl From<Path> for u8 {
    ghost from_gives = { λ path number. number ≡ path_number path };

    fn from(path: Path) -> u8 {
        path as u8
    }
}

#[derive(Clone, Copy, Debug, PartialEq, Eq)]
pub struct Call {
    pub state: State,
    // The call's identifier, 0 while it has none.
    pub id: u16,
    // The other party, 0 where unknown.
    pub address: u32,
    // 0 simplex, 1 duplex.
    pub mode: u8,
    // 1 while permission to transmit is asked for.
    pub asked: u8,
    // 1 once U-SETUP or U-DISCONNECT is known to be sent.
    pub sent: u8,
    pub path: Path,
    // What the lower layers were last told: 1 transmit, 2 receive, 3 both, 4 off.
    pub plane: u8,
    // The plane to go back to after a pause.
    pub kept: u8,
    // T310's code.
    pub code: u8,
    // Slots per frame.
    pub slots: u8,
    // Which of the timers 301 302 303 306 308 310 311 run.
    pub timers: [bool; 7],
}

// The index of each timer in a record's array.
pub const T301: usize = 0;

pub const T302: usize = 1;

pub const T303: usize = 2;

pub const T306: usize = 3;

pub const T308: usize = 4;

pub const T310: usize = 5;

pub const T311: usize = 6;

// Whether a call in this state may have no identifier.
fn may_lack_id(state: State) -> bool
    ensures { result ≡ may_lack_id state }
{
    matches!(
        state,
        State::Idle | State::MoCallSetup | State::CallDisconnect
    )
}

impl Call {
    pub const ID_MOST: u16 = 16383;

    pub const ADDRESS_MOST: u32 = 16777215;

    pub const CODE_MOST: u8 = 15;

    pub const OFF: u8 = 4;

    pub const SLOTS_MOST: u8 = 4;

    // No call.
    pub fn fresh() -> Self
        ensures { result ≡ fresh_call }
    {
        Call {
            state: State::Idle,
            id: 0,
            address: 0,
            mode: 0,
            asked: 0,
            sent: 0,
            path: Path::Up,
            plane: Self::OFF,
            kept: Self::OFF,
            code: 0,
            slots: 1,
            timers: [false; 7],
        }
    }

    pub fn is_idle(self) -> bool
        ensures { result ≡ is_idle self }
    {
        self.state == State::Idle
    }

    fn is_active(self) -> bool
        ensures { result ≡ is_active self }
    {
        self.state == State::CallActive
    }

    fn is_wait(self) -> bool
        ensures { result ≡ is_wait self }
    {
        self.state == State::Wait
    }

    fn is_up(self) -> bool
        ensures { result ≡ is_up self }
    {
        self.path == Path::Up
    }

    fn is_restoring(self) -> bool
        ensures { result ≡ is_restoring self }
    {
        self.path == Path::Restoring
    }

    // The set has the U-plane to transmit.
    pub fn transmits(self) -> bool
        ensures { result ≡ transmits self.plane }
    {
        (self.plane == 1) | (self.plane == 3)
    }

    fn all_stopped(self) -> bool
        ensures { result ≡ all_stopped self }
    {
        !self.timers.contains(&true)
    }

    fn in_range(self) -> bool
        ensures { result ≡ in_range self }
    {
        (self.id <= Self::ID_MOST)
            & (self.address <= Self::ADDRESS_MOST)
            & (self.mode <= 1)
            & (self.asked <= 1)
            & (self.sent <= 1)
            & (1 <= self.plane)
            & (self.plane <= Self::OFF)
            & (1 <= self.kept)
            & (self.kept <= Self::OFF)
            & (self.code <= Self::CODE_MOST)
            & (1 <= self.slots)
            & (self.slots <= Self::SLOTS_MOST)
    }

    // All but the state as in the fresh record.
    fn as_fresh(self) -> bool
        ensures { result ≡ as_fresh self }
    {
        (self.id == 0)
            & (self.address == 0)
            & (self.mode == 0)
            & (self.asked == 0)
            & (self.sent == 0)
            & self.is_up()
            & (self.plane == Self::OFF)
            & (self.kept == Self::OFF)
            & (self.code == 0)
            & (self.slots == 1)
            & self.all_stopped()
    }

    // T311 runs exactly when plane is 1; T306 runs exactly when restoring.
    fn timers_agree(self) -> bool
        ensures { result ≡ timers_agree self }
    {
        let t = self.timers;
        (t[T311] == (self.plane == 1)) & (t[T306] == self.is_restoring())
    }

    // Plane is 4 unless CALL-ACTIVE with path up; path is up unless CALL-ACTIVE; kept plane is 4 unless WAIT; identifier 0 only in IDLE,
    // MO-CALL-SETUP, CALL-DISCONNECT.
    fn state_agrees(self) -> bool
        ensures { result ≡ state_agrees self }
    {
        let state = self.state;
        let active = self.is_active();
        let up = self.is_up();
        ((self.plane == Self::OFF) | (active & up))
            & (up | active)
            & ((self.kept == Self::OFF) | self.is_wait())
            & ((1 <= self.id) | may_lack_id(state))
    }

    // In IDLE, the fresh record and no other.
    fn idle_is_fresh(self) -> bool
        ensures { result ≡ (is_idle self ⇒ as_fresh self) }
    {
        if self.is_idle() {
            return self.as_fresh();
        }
        true
    }

    // What the paper calls sound.
    pub fn sound(self) -> bool
        ensures { result ≡ sound self }
    {
        if !self.in_range() {
            return false;
        }
        if !self.idle_is_fresh() {
            return false;
        }
        self.timers_agree() & self.state_agrees()
    }
}
