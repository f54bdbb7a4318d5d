// A table by its keys, one number for each place: what tells records apart and finds a place, without the records.
ghost use Rattle.std.specs.Prelude.{◌≡◌, ◌==◌, ◌<◌, nat_le, position};
ghost use Rattle.console.specs.Keys.{key_of, keys_from, apart_by};

use callcontrol::call::Call;

// What a record is told apart by: its identifier, and in IDLE a number that no other place has.
// A place stays a plain number, here and above: a type of those below 8 would be made and opened again at each turn of the loops over 0..8.
pub fn key_of(call: Call, k: usize) -> u16
    requires { k < 8 }
    ensures { result ≡ key_of k call }
{
    if call.is_idle() {
        return Keys::IDLE + k as u16;
    }
    call.id
}

// The key of each place.
#[derive(Clone, Copy, Debug, PartialEq, Eq)]
pub struct Keys {
    // Plain numbers, 0 where no identifier is known yet: `key_of` of specs/Keys is a number, and what is promised of a table's keys is told by it.
    pub each: [u16; 8],
}

impl Keys {
    // Above every identifier: the key of place 0 in IDLE.
    pub const IDLE: u16 = 16384;

    // Eight calls stay an array: no function requires anything of all eight, so that a type of them would only be made and opened.
    pub fn of(calls: [Call; 8]) -> Self
        ensures { result.each ≡ keys_from 0 calls }
    {
        let mut each = [0; 8];
        for (k, call) in calls.iter().enumerate() {
            each[k] = key_of(*call, k);
        }
        Keys { each }
    }

    // Whether no two are equal.
    pub fn apart(self) -> bool
        ensures { result ≡ apart_by self.each }
    {
        let keys = self.each;
        for k in 0..8 {
            if keys[k + 1..].contains(&keys[k]) {
                return false;
            }
        }
        true
    }

    // The lowest place with this key.
    pub fn held_by(self, id: u16) -> Option<usize>
        ensures { result ≡ position (λ key. key == id) self.each }
    {
        self.each.iter().position(|key| *key == id)
    }

    // The lowest IDLE place.
    pub fn lowest_idle(self) -> Option<usize>
        ensures { result ≡ position (λ key. nat_le Self.IDLE key) self.each }
    {
        self.each.iter().position(|key| Self::IDLE <= *key)
    }
}
