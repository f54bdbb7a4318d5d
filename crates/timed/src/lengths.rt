// The bank's table of lengths, tested whole at each entry, so that no START fails.
ghost use Rattle.std.specs.Prelude.{◌≡◌};
ghost use Rattle.std.specs.List.{list_all};
ghost use Rattle.timed.specs.Set.{is_length, table_right};

use timers::bank::Bank;

#[tactic(auto, unfolding(crate::specs::Set::is_length))]
fn is_length(length: u32) -> bool
    ensures { result ≡ is_length length }
{
    (1 <= length) & (length <= Bank::LENGTH_MOST)
}

fn are_lengths(lengths: &[u32]) -> bool
    ensures { result ≡ list_all is_length lengths.now }
{
    lengths.iter().all(|length| is_length(*length))
}

// T301 T302 T303 T306 T308 T311, and T310's for codes 1 to 15. Entry 6, T310's for code 0, is not looked at.
#[tactic(auto, using(crate::proofs::Ranges::table_is), unfolding(crate::specs::Set::table_right))]
pub fn table_right(lengths: &[u32]) -> bool
    ensures { result ≡ table_right lengths.now }
{
    if lengths.len() < Bank::ENTRIES {
        return false;
    }
    are_lengths(&lengths[..6]) && are_lengths(&lengths[7..Bank::ENTRIES])
}
