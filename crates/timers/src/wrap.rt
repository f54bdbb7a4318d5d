// Before and after on a counter that wraps: the wrapped difference as a signed number, compared with zero.
ghost use Rattle.std.specs.Prelude.{◌≡◌};
ghost use Rattle.timers.specs.Wrap.{is_back, forward};

// Whether a wrapped difference leads back.
#[tactic(auto, unfolding(crate::specs::Wrap::is_back, crate::specs::Wrap::signed))]
pub fn is_back(d: u32) -> bool
    ensures { result ≡ is_back d }
{
    d.cast_signed() < 0
}

// The wrapped difference from one reading to another.
#[tactic(auto, unfolding(crate::specs::Wrap::forward))]
pub fn forward(from: u32, to: u32) -> u32
    ensures { result ≡ forward from to }
{
    to.wrapping_sub(from)
}
