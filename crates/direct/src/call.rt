// The record of an outgoing direct mode call, and what makes it sound.
ghost use Rattle.std.specs.Prelude.{◌≡◌};
ghost use Rattle.direct.specs.Call.{fresh_call, state_number, as_fresh, in_limits, sound, StateOf};

// Where the call is. The numbers are those of a host's record.
#[derive(Clone, Copy, Debug, PartialEq, Eq)]
pub enum State {
    // IDLE: no call.
    Idle = 0,
    // CALL SETUP PRES_CHECK ORIGINATING: DM-SETUP PRES is sent, and the called set has not accepted.
    PresenceCheck = 1,
    // CALL ACTIVE TX OCCUPATION: the called set has accepted.
    Active = 2,
}

impl From<State> for u8 {
    ghost from_gives = { λ state number. number ≡ state_number state };

    fn from(state: State) -> u8 {
        state as u8
    }
}

// A number that no state has.
#[derive(Clone, Copy, Debug, PartialEq, Eq)]
pub struct UnknownState(pub u8);

impl TryFrom<u8> for State {
    type Error = UnknownState;

    ghost try_from_gives = { StateOf };

    fn try_from(number: u8) -> Result<Self, UnknownState> {
        match number {
            0 => Ok(State::Idle),
            1 => Ok(State::PresenceCheck),
            2 => Ok(State::Active),
            _ => Err(UnknownState(number)),
        }
    }
}

#[derive(Clone, Copy, Debug, PartialEq, Eq)]
pub struct Call {
    pub state: State,
    // The grade of service asked for; higher is better.
    pub target: u8,
    // The lowest grade that the user accepts.
    pub lowest: u8,
    // How often DM-SETUP PRES may be written.
    pub limit: u8,
    // How often it was.
    pub used: u8,
    // Whether DT303 runs: an answer to DM-SETUP PRES is waited for.
    pub dt303: bool,
    // Whether DT311 runs: the set occupies the channel.
    pub dt311: bool,
}

impl Call {
    pub const LIMIT_LEAST: u8 = 1;

    pub const LIMIT_MOST: u8 = 15;

    // No call.
    pub fn fresh() -> Self
        ensures { result ≡ fresh_call }
    {
        Call {
            state: State::Idle,
            target: 0,
            lowest: 0,
            limit: 0,
            used: 0,
            dt303: false,
            dt311: false,
        }
    }

    // All but the state as in the fresh record.
    #[tactic(auto, unfolding(crate::specs::Call::as_fresh))]
    fn as_fresh(self) -> bool
        ensures { result ≡ as_fresh self }
    {
        Call {
            state: State::Idle,
            ..self
        } == Call::fresh()
    }

    // The numbers of a call in range.
    #[tactic(auto, unfolding(crate::specs::Call::in_limits))]
    fn in_limits(self) -> bool
        ensures { result ≡ in_limits self }
    {
        Self::LIMIT_LEAST <= self.limit
            && self.limit <= Self::LIMIT_MOST
            && 1 <= self.used
            && self.used <= self.limit
            && self.lowest <= self.target
    }

    // IDLE only if fresh, else the numbers in range; DT303 runs only in PRESENCE CHECK, DT311 exactly in ACTIVE.
    #[tactic(auto, unfolding(crate::specs::Call::sound))]
    pub fn sound(self) -> bool
        ensures { result ≡ sound self }
    {
        match self.state {
            State::Idle => self.as_fresh(),
            State::PresenceCheck => self.in_limits() && !self.dt311,
            State::Active => self.in_limits() && !self.dt303 && self.dt311,
        }
    }
}
