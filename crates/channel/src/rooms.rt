// Four rooms for the questions that wait: what makes them sound, and the first room of a kind.
ghost use Rattle.std.specs.Prelude.{◌≡◌, ◌<◌, ◌≤◌, ◌&&◌};
ghost use Rattle.std.specs.List.{position};
ghost use Rattle.channel.specs.Rooms.{wait_number, is_free, has_number, waits_for, of_call, room_fits, free_room, fresh_rooms, some?, every?, apart_from, rooms_sound, freed, all_freed, count};

use callcontrol::call::Call;

// What a question waits for.
#[derive(Clone, Copy, Debug, PartialEq, Eq)]
pub enum Wait {
    // Nothing waits here.
    Nobody = 0,
    // The user's SETUP response or RELEASE request, or T330's expiry.
    User = 1,
    // Whether the CANCEL of U-SETUP worked.
    Cancel = 2,
}

impl Wait {
    // As the host's bytes have it.
    pub fn number(self) -> u8
        ensures value { result ≡ wait_number self }
        ensures upper_bound { result < 3 }
    {
        self as u8
    }
}

// A room: the number of the question that waits there, the call of the PDU that brought it, and what it waits for. All of a free room is 0.
// Not an Option: a host's bytes may have a free room with a number, which is answered with 1 (`rooms_sound`), and are packed again as they were
// (HeldRoomsArePacked of host).
#[derive(Clone, Copy, Debug, PartialEq, Eq)]
pub struct Room {
    pub wait: Wait,
    pub number: u16,
    pub call: u16,
}

impl Room {
    pub const FREE: Room = Room {
        wait: Wait::Nobody,
        number: 0,
        call: 0,
    };

    #[tactic(auto, unfolding(crate::specs::Rooms::is_free))]
    fn is_free(self) -> bool
        ensures { result ≡ is_free self }
    {
        self.wait == Wait::Nobody
    }

    // A question of this number waits there.
    #[tactic(auto, unfolding(crate::specs::Rooms::has_number))]
    fn has_number(self, number: u16) -> bool
        ensures { result ≡ has_number number self }
    {
        !self.is_free() && self.number == number
    }

    // It waits for this.
    #[tactic(auto, unfolding(crate::specs::Rooms::waits_for))]
    fn waits_for(self, number: u16, wait: Wait) -> bool
        ensures { result ≡ waits_for number wait self }
    {
        self.has_number(number) && self.wait == wait
    }

    // A question of this call waits there.
    #[tactic(auto, unfolding(crate::specs::Rooms::of_call))]
    pub fn is_of_call(self, call: u16) -> bool
        ensures { result ≡ of_call call self }
    {
        !self.is_free() && self.call == call
    }

    // All of a free room is 0, and the call of a question is an identifier.
    #[tactic(auto, unfolding(crate::specs::Rooms::room_fits, crate::specs::Rooms::is_free))]
    fn fits(self) -> bool
        ensures { result ≡ room_fits self }
    {
        if self.is_free() {
            self == Room::FREE
        } else {
            self.call <= Call::ID_MOST
        }
    }

    // Two rooms hold questions of different numbers, or one of them is free.
    #[tactic(auto, unfolding(crate::specs::Rooms::apart_from))]
    fn is_apart_from(self, other: Room) -> bool
        ensures { result ≡ apart_from self other }
    {
        self.is_free() || !other.has_number(self.number)
    }

    // It fits, and is apart from each later room.
    fn fits_before(self, later: &[Room]) -> bool
        ensures { result ≡ (room_fits self && every? (apart_from self) later.now) }
    {
        self.fits() && later.iter().all(|other| self.is_apart_from(*other))
    }

    // The room with its question answered, if that is of this call.
    #[tactic(auto, unfolding(crate::specs::Rooms::freed))]
    pub fn freed(self, call: u16) -> Room
        ensures { result ≡ freed call self }
    {
        if self.is_of_call(call) {
            Room::FREE
        } else {
            self
        }
    }
}

// The four rooms. They may be unsound, as a host's bytes may, and are then refused with 1: so no invariant says that they are sound.
#[derive(Clone, Copy, Debug, PartialEq, Eq)]
pub struct Rooms {
    pub rooms: [Room; 4],
}

impl Rooms {
    // Four free rooms.
    pub fn fresh() -> Rooms
        ensures { result.rooms ≡ fresh_rooms }
    {
        Rooms {
            rooms: [Room::FREE; 4],
        }
    }

    // Every room fits, and no two hold one number.
    #[tactic(auto, using(crate::proofs::First::fitting_on))]
    pub fn are_sound(self) -> bool
        ensures { result ≡ rooms_sound self.rooms }
    {
        for (k, room) in self.rooms.iter().enumerate() {
            if !room.fits_before(&self.rooms[k + 1..]) {
                return false;
            }
        }
        true
    }

    // Whether a question of this number waits in one of the rooms.
    pub fn number_waits(self, number: u16) -> bool
        ensures { result ≡ some? (has_number number) self.rooms }
    {
        self.rooms.iter().any(|room| room.has_number(number))
    }

    // The first free room.
    pub fn first_free(self) -> Option<usize>
        ensures { result ≡ position is_free self.rooms }
    {
        self.rooms.iter().position(|room| room.is_free())
    }

    // The room with the question of this number that waits for this.
    pub fn first_waiting(self, number: u16, wait: Wait) -> Option<usize>
        ensures { result ≡ position (waits_for number wait) self.rooms }
    {
        self.rooms
            .iter()
            .position(|room| room.waits_for(number, wait))
    }

    // How many questions of this call wait.
    #[tactic(auto, using(crate::proofs::First::count_is, crate::proofs::Counting::count_length))]
    pub fn of_call(self, call: u16) -> usize
        ensures count { result ≡ count (of_call call) self.rooms }
        ensures upper_bound { result ≤ 4 }
    {
        self.rooms
            .iter()
            .filter(|room| room.is_of_call(call))
            .count()
    }

    // The rooms with each question of this call answered.
    #[tactic(auto, using(crate::proofs::First::freed_all))]
    pub fn freed(self, call: u16) -> Rooms
        ensures { result.rooms ≡ all_freed call self.rooms }
    {
        let mut freed = self;
        for room in freed.rooms.iter_mut() {
            *room = room.freed(call);
        }
        freed
    }
}
