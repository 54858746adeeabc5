//! Whole lists of commands.

ghost use Rattle.std.specs.Prelude.{◌≡◌, ◌++◌, ℕ, IfOk, IsOkUnless, IsTrue, OnOk};
ghost use Rattle.std.specs.Option.{option_to_list};
ghost use Rattle.pyramid.specs.Display.{accepts, empty_slots, first_refused, shown};

use crate::{Display, EmptySlot};
use coding_base::OutOfMemory;
use pyramid::Command;
use std::alloc::Global;
use thiserror::Error;

/// Why commands can't be replayed.
#[derive(Clone, Copy, Debug, PartialEq, Eq, Error)]
pub enum ReplayError {
    /// A command names a slot that holds no frame.
    #[error("command {at}: slot {slot} is empty")]
    Empty {
        /// The first such command, by its index from 0.
        at: usize,
        /// The first such slot, in the order in which the command names them.
        slot: u8,
    },
    /// Memory ran out.
    #[error("out of memory")]
    OutOfMemory,
}

impl From<OutOfMemory> for ReplayError {
    ghost use Rattle.std.specs.Prelude.{◌≡◌};
    ghost use Rattle.slot_replay.specs.declared.replays.ReplayError.TheVariants.{OutOfMemory};

    ghost from_gives = { λ _ e. e ≡ OutOfMemory };

    fn from(_: OutOfMemory) -> ReplayError {
        ReplayError::OutOfMemory
    }
}

/// The frames that the commands show in order, from eight empty slots on.
///
/// `Empty` comes exactly for the first command that names an empty slot. The one other error is want of memory.
pub fn replay(alloc: Global, commands: &[Command]) -> Result<Vec<u64>, ReplayError>
    ensures accepted { OnOk result (IsTrue (accepts empty_slots commands.now)) }
    ensures shown { IfOk result (λ frames. frames.items ≡ shown empty_slots commands.now) }
    ensures refused { (at slot : ℕ) → result ≡ Err (ReplayError.Empty at slot)
        → first_refused empty_slots commands.now ≡ Some (at, slot) }
    ensures complete { IsTrue (accepts empty_slots commands.now)
        → IsOkUnless result ReplayError.OutOfMemory }
{
    let mut display = Display::new();
    let mut frames = Vec::new(alloc);
    for (at, command) in commands.iter().enumerate() {
        match display.step(command) {
            Ok(frame) => push_shown(&mut frames, frame)?,
            Err(EmptySlot { slot }) => return Err(ReplayError::Empty { at, slot }),
        }
    }
    Ok(frames)
}

// Puts the frame that is shown, if there is one, at the end.
fn push_shown(frames: &mut Vec<u64>, frame: Option<u64>) -> Result<(), OutOfMemory>
    ensures { OnOk result (frames.new.items ≡ frames.old.items ++ option_to_list frame) }
{
    if let Some(number) = frame {
        frames.push(number)?;
    }
    Ok(())
}
