// Which timers are due at a reading, and in what order they are handed out.
ghost use Rattle.std.specs.Prelude.{◌≡◌, ◌<◌, ◌≤◌, ◌++◌, length, drop};
ghost use Rattle.timers.specs.Due.{key_of, keys_of, count_of, under, greater, lesser, paired, Paired, below, number_of, handed, stays, staying};

use crate::wrap::{forward, is_back};

// A timer's key at a reading: 0 where it is not due. The later it is the greater is its key, and of two that are equally late the one with
// the lower number has the greater; no two timers have one key. A number and no Option: 0 is below every key, so that the greatest of several is
// their `max`, as `below` and `handed` of specs/ have it.
#[tactic(auto, unfolding(crate::specs::Due::key_of))]
fn key_of(index: u64, running: bool, deadline: u32, reading: u32) -> u64
    requires { index < 7 }
    ensures { result ≡ key_of index running deadline reading }
{
    let late = forward(deadline, reading);
    if !running || is_back(late) {
        return 0;
    }
    late as u64 * 8 + (7 - index)
}

// The seven keys, by rising number.
pub fn keys_of(running: [bool; 7], deadlines: [u32; 7], reading: u32) -> [u64; 7]
    ensures { result ≡ keys_of running deadlines reading }
{
    std::array::from_fn(|i| key_of(i as u64, running[i], deadlines[i], reading))
}

// How many timers are due.
pub fn count_of(keys: [u64; 7]) -> usize
    ensures { result ≡ count_of keys }
{
    keys.iter().filter(|key| **key != 0).count()
}

// A key where it is below a bound, else 0.
#[tactic(auto, unfolding(crate::specs::Due::under))]
fn under(bound: u64, key: u64) -> u64
    ensures { result ≡ under bound key }
{
    if key < bound { key } else { 0 }
}

// The greater key of a pair below a bound, 0 where there is none.
#[tactic(auto, using(crate::proofs::Pairs::high_taken, crate::proofs::Pairs::low_taken))]
fn of_pair(bound: u64, high: u64, low: u64) -> u64
    requires { low ≤ high }
    ensures { result ≡ greater (under bound high) (under bound low) }
{
    if high < bound {
        return high;
    }
    under(bound, low)
}

// The number of the timer that a key is of, and 0 where it is of none: `number_of` of specs/Due, by which `hand_out` is promised, is a number for every key.
#[tactic(auto, unfolding(crate::specs::Due::number_of))]
fn number_of(key: u64) -> u16
    ensures { result ≡ number_of key }
{
    match key % 8 {
        7 => 301,
        6 => 302,
        5 => 303,
        4 => 306,
        3 => 308,
        2 => 310,
        1 => 311,
        _ => 0,
    }
}

// Keys with the greater of each pair first, so that the lesser is looked at only where the greater is taken.
#[derive(Clone, Copy)]
pub struct Pairs {
    pub keys: [u64; 7],
    ghost sorted: { Paired keys },
}

impl Pairs {
    pub fn of(keys: [u64; 7]) -> Self
        ensures { result.keys ≡ paired keys }
    {
        let [a, b, c, d, e, f, last] = keys;
        Pairs {
            keys: [
                a.max(b),
                a.min(b),
                c.max(d),
                c.min(d),
                e.max(f),
                e.min(f),
                last,
            ],
        }
    }

    // The greatest key below a bound, 0 where there is none. Written out, pair by pair, as `below` of specs/Due is.
    #[tactic(auto, unfolding(crate::specs::Due::below))]
    fn below(self, bound: u64) -> u64
        ensures { result ≡ below bound self.keys }
    {
        let a = of_pair(bound, self.keys[0], self.keys[1]);
        let b = of_pair(bound, self.keys[2], self.keys[3]);
        let c = of_pair(bound, self.keys[4], self.keys[5]);
        a.max(b).max(c.max(under(bound, self.keys[6])))
    }

    // The numbers of the count greatest keys, the greatest first; later elements of the list stay.
    pub fn hand_out(self, count: usize, due: &mut [u16])
        requires { count ≤ length due.old }
        ensures { due.new ≡ handed count 34359738368 self.keys ++ drop count due.old }
    {
        // 2^35, above every key.
        let mut bound: u64 = 34359738368;
        for number in &mut due[..count] {
            bound = self.below(bound);
            *number = number_of(bound);
        }
    }
}

// Those handed out no longer run.
pub fn staying(running: [bool; 7], keys: [u64; 7]) -> [bool; 7]
    ensures { result ≡ staying running keys }
{
    std::array::from_fn(|i| running[i] && keys[i] == 0)
}
