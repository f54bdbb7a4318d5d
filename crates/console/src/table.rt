// Eight call records: what makes the table sound.
ghost use Rattle.std.specs.Prelude.{◌≡◌};
ghost use Rattle.callcontrol.specs.Call.{sound};
ghost use Rattle.std.specs.List.{list_all};
ghost use Rattle.console.specs.Table.{table_sound};

use crate::keys::Keys;
use callcontrol::call::Call;

fn all_sound(calls: [Call; 8]) -> bool
    ensures { result ≡ list_all sound calls }
{
    calls.iter().all(|call| call.sound())
}

// Every record is sound, and no two are alike.
pub fn table_sound(calls: [Call; 8]) -> bool
    ensures { result ≡ table_sound calls }
{
    all_sound(calls) && Keys::of(calls).apart()
}
