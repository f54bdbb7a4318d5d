// One function for each message: it stores the message's bytes from a position on where they fit, whatever the values, and answers the position after them.
// Who knows which message it writes calls these, and need make no `Message`.
ghost use Rattle.std.specs.Prelude.{◌≡◌, List, ℕ};
ghost use Rattle.records.specs.declared.messages.Message.{Message};
ghost use Rattle.records.specs.Messages.{message_laid};

use crate::lines::lay_record;

// U-SETUP a d q, or with s behind them
pub fn lay_u_setup(
    address: u32,
    mode: u8,
    ask: u8,
    slots: u8,
    buffer: &mut [u8],
    at: usize,
) -> usize
    ensures { ◌≡◌ {A = ℕ × List ℕ} (result, buffer.new) (message_laid (Message.USetup address mode ask slots) buffer.old at) }
{
    if slots == 0 {
        let [a, b, c, d] = address.to_le_bytes();
        return lay_record(0x0501, [a, b, c, d, mode, ask], buffer, at);
    }
    let [a, b, c, d] = address.to_le_bytes();
    lay_record(0x0501, [a, b, c, d, mode, ask, slots], buffer, at)
}

// U-CONNECT i
pub fn lay_u_connect(id: u16, buffer: &mut [u8], at: usize) -> usize
    ensures { ◌≡◌ {A = ℕ × List ℕ} (result, buffer.new) (message_laid (Message.UConnect id) buffer.old at) }
{
    let [low, high] = id.to_le_bytes();
    lay_record(0x0502, [low, high], buffer, at)
}

// U-DISCONNECT i c
pub fn lay_u_disconnect(id: u16, cause: u8, buffer: &mut [u8], at: usize) -> usize
    ensures { ◌≡◌ {A = ℕ × List ℕ} (result, buffer.new) (message_laid (Message.UDisconnect id cause) buffer.old at) }
{
    let [low, high] = id.to_le_bytes();
    lay_record(0x0503, [low, high, cause], buffer, at)
}

// U-RELEASE i
pub fn lay_u_release(id: u16, buffer: &mut [u8], at: usize) -> usize
    ensures { ◌≡◌ {A = ℕ × List ℕ} (result, buffer.new) (message_laid (Message.URelease id) buffer.old at) }
{
    let [low, high] = id.to_le_bytes();
    lay_record(0x0504, [low, high], buffer, at)
}

// U-INFO i d
pub fn lay_u_info(id: u16, mode: u8, buffer: &mut [u8], at: usize) -> usize
    ensures { ◌≡◌ {A = ℕ × List ℕ} (result, buffer.new) (message_laid (Message.UInfo id mode) buffer.old at) }
{
    let [low, high] = id.to_le_bytes();
    lay_record(0x0505, [low, high, mode], buffer, at)
}

// U-TX DEMAND i
pub fn lay_u_tx_demand(id: u16, buffer: &mut [u8], at: usize) -> usize
    ensures { ◌≡◌ {A = ℕ × List ℕ} (result, buffer.new) (message_laid (Message.UTxDemand id) buffer.old at) }
{
    let [low, high] = id.to_le_bytes();
    lay_record(0x0506, [low, high], buffer, at)
}

// U-TX CEASED i
pub fn lay_u_tx_ceased(id: u16, buffer: &mut [u8], at: usize) -> usize
    ensures { ◌≡◌ {A = ℕ × List ℕ} (result, buffer.new) (message_laid (Message.UTxCeased id) buffer.old at) }
{
    let [low, high] = id.to_le_bytes();
    lay_record(0x0507, [low, high], buffer, at)
}

// U-CALL RESTORE i a q
pub fn lay_u_call_restore(id: u16, address: u32, ask: u8, buffer: &mut [u8], at: usize) -> usize
    ensures { ◌≡◌ {A = ℕ × List ℕ} (result, buffer.new) (message_laid (Message.UCallRestore id address ask) buffer.old at) }
{
    let [low, high] = id.to_le_bytes();
    let [a, b, c, d] = address.to_le_bytes();
    lay_record(0x0508, [low, high, a, b, c, d, ask], buffer, at)
}

// STOP n
pub fn lay_stop(timer: u16, buffer: &mut [u8], at: usize) -> usize
    ensures { ◌≡◌ {A = ℕ × List ℕ} (result, buffer.new) (message_laid (Message.Stop timer) buffer.old at) }
{
    let [low, high] = timer.to_le_bytes();
    lay_record(0x0601, [low, high], buffer, at)
}

// START n o
pub fn lay_start(timer: u16, code: u8, buffer: &mut [u8], at: usize) -> usize
    ensures { ◌≡◌ {A = ℕ × List ℕ} (result, buffer.new) (message_laid (Message.Start timer code) buffer.old at) }
{
    let [low, high] = timer.to_le_bytes();
    lay_record(0x0602, [low, high, code], buffer, at)
}

// CONFIGURE p
pub fn lay_configure(plane: u8, buffer: &mut [u8], at: usize) -> usize
    ensures { ◌≡◌ {A = ℕ × List ℕ} (result, buffer.new) (message_laid (Message.Configure plane) buffer.old at) }
{
    lay_record(0x0603, [plane], buffer, at)
}

// CANCEL
pub fn lay_cancel(buffer: &mut [u8], at: usize) -> usize
    ensures { ◌≡◌ {A = ℕ × List ℕ} (result, buffer.new) (message_laid Message.Cancel buffer.old at) }
{
    lay_record(0x0604, [], buffer, at)
}

// PLACE y
pub fn lay_place(place: u8, buffer: &mut [u8], at: usize) -> usize
    ensures { ◌≡◌ {A = ℕ × List ℕ} (result, buffer.new) (message_laid (Message.Place place) buffer.old at) }
{
    lay_record(0x0605, [place], buffer, at)
}

// CHANNEL ANSWER u v
pub fn lay_channel_answer(number: u16, verdict: u8, buffer: &mut [u8], at: usize) -> usize
    ensures { ◌≡◌ {A = ℕ × List ℕ} (result, buffer.new) (message_laid (Message.ChannelAnswer number verdict) buffer.old at) }
{
    let [low, high] = number.to_le_bytes();
    lay_record(0x0606, [low, high, verdict], buffer, at)
}

// SETUP indication i a d
pub fn lay_setup_indication(id: u16, address: u32, mode: u8, buffer: &mut [u8], at: usize) -> usize
    ensures { ◌≡◌ {A = ℕ × List ℕ} (result, buffer.new) (message_laid (Message.SetupIndication id address mode) buffer.old at) }
{
    let [low, high] = id.to_le_bytes();
    let [a, b, c, d] = address.to_le_bytes();
    lay_record(0x0701, [low, high, a, b, c, d, mode], buffer, at)
}

// SETUP confirm i g
pub fn lay_setup_confirm(id: u16, grant: u8, buffer: &mut [u8], at: usize) -> usize
    ensures { ◌≡◌ {A = ℕ × List ℕ} (result, buffer.new) (message_laid (Message.SetupConfirm id grant) buffer.old at) }
{
    let [low, high] = id.to_le_bytes();
    lay_record(0x0702, [low, high, grant], buffer, at)
}

// PROCEED
pub fn lay_proceed(buffer: &mut [u8], at: usize) -> usize
    ensures { ◌≡◌ {A = ℕ × List ℕ} (result, buffer.new) (message_laid Message.Proceed buffer.old at) }
{
    lay_record(0x0703, [], buffer, at)
}

// ALERT
pub fn lay_alert(buffer: &mut [u8], at: usize) -> usize
    ensures { ◌≡◌ {A = ℕ × List ℕ} (result, buffer.new) (message_laid Message.Alert buffer.old at) }
{
    lay_record(0x0704, [], buffer, at)
}

// COMPLETE g
pub fn lay_complete(grant: u8, buffer: &mut [u8], at: usize) -> usize
    ensures { ◌≡◌ {A = ℕ × List ℕ} (result, buffer.new) (message_laid (Message.Complete grant) buffer.old at) }
{
    lay_record(0x0705, [grant], buffer, at)
}

// RELEASE indication c
pub fn lay_release_indication(cause: u8, buffer: &mut [u8], at: usize) -> usize
    ensures { ◌≡◌ {A = ℕ × List ℕ} (result, buffer.new) (message_laid (Message.ReleaseIndication cause) buffer.old at) }
{
    lay_record(0x0706, [cause], buffer, at)
}

// RELEASE confirm
pub fn lay_release_confirm(buffer: &mut [u8], at: usize) -> usize
    ensures { ◌≡◌ {A = ℕ × List ℕ} (result, buffer.new) (message_laid Message.ReleaseConfirm buffer.old at) }
{
    lay_record(0x0707, [], buffer, at)
}

// TX indication x
pub fn lay_tx_indication(told: u8, buffer: &mut [u8], at: usize) -> usize
    ensures { ◌≡◌ {A = ℕ × List ℕ} (result, buffer.new) (message_laid (Message.TxIndication told) buffer.old at) }
{
    lay_record(0x0708, [told], buffer, at)
}

// MODIFY indication d s
pub fn lay_modify_indication(mode: u8, slots: u8, buffer: &mut [u8], at: usize) -> usize
    ensures { ◌≡◌ {A = ℕ × List ℕ} (result, buffer.new) (message_laid (Message.ModifyIndication mode slots) buffer.old at) }
{
    lay_record(0x0709, [mode, slots], buffer, at)
}
