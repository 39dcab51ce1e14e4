ghost use Rattle.std.specs.Prelude.{◌≡◌, ◌<◌, ◌^◌};
ghost use Rattle.nop_types.specs.Sessions.{opening_session};
ghost use Rattle.session_control.specs.ControllerSteps.{epoch_above, first_of, next_session};

use nop_types::EPOCH_STEP;

/// Epochs and counts are below this one: a session is its epoch times this number, plus its count.
const PART_END: u64 = 0x1_0000_0000;

/// The session that a controller opens with.
pub fn opening_session(number: u8) -> u64
    ensures { result ≡ opening_session number }
{
    if number == 0 {
        1
    } else {
        u64::from(number) * PART_END
    }
}

/// The least epoch above this one that is the controller's own.
fn epoch_above(epoch: u64, number: u8) -> u64
    requires { epoch < 2 ^ 32 }
    ensures { result ≡ epoch_above epoch number }
{
    let next = epoch + 1;
    next + (u64::from(number) + (EPOCH_STEP - 1) * next) % EPOCH_STEP
}

/// The first session of an epoch, None where the epoch does not fit 32 bits.
fn first_of(epoch: u64) -> Option<u64>
    ensures { result ≡ first_of epoch }
{
    if epoch < PART_END {
        Some(epoch * PART_END + 1)
    } else {
        None
    }
}

/// The session of a controller's next move, None where its epochs end. Where it saw a session above its own, that is the first
/// one of its next epoch above; else its count rises, and after the last count its next epoch begins.
pub fn next_session(number: u8, session: u64, seen: u64) -> Option<u64>
    ensures { result ≡ next_session number session seen }
{
    if session < seen {
        return first_of(epoch_above(seen / PART_END, number));
    }
    if session % PART_END < PART_END - 1 {
        return Some(session + 1);
    }
    first_of(session / PART_END + EPOCH_STEP)
}
