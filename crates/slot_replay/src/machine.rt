//! The machine, one command at a time.

ghost use Rattle.std.specs.Prelude.{◌≡◌, is_some, length, not, IfErr, IfOk, OnErr, OnOk};
ghost use Rattle.std.specs.List.{find};
ghost use Rattle.std.specs.Option.{option_to_list};
ghost use Rattle.pyramid.specs.Display.{empty_slots, first_empty, held, refreshed, shown_by, slots_after_one};

use pyramid::{Command, Refs};
use std::marker::Model;
use thiserror::Error;

/// A command names a slot that holds no frame.
#[derive(Clone, Copy, Debug, PartialEq, Eq, Error)]
#[error("slot {slot} is empty")]
pub struct EmptySlot {
    /// The first such slot, in the order in which the command names them.
    pub slot: u8,
}

/// Eight slots, each empty or holding the number of a frame (the AV1 specification's reference frame slots). Contracts
/// see the list of what they hold. A number above 7 names a slot that is always empty.
#[derive(Debug, Drop)]
pub struct Display {
    slots: [Option<u64>; 8],
}

impl Model for Display {
    ghost use Rattle.std.specs.Prelude.{◌≡◌, length};
    ghost use Rattle.pyramid.specs.Display.{Slots};

    ghost Value = { Slots };

    ghost view = { λ display. display.slots };

    ghost invariant = { λ display. length display.slots ≡ 8 };
}

impl Display {
    /// Eight empty slots.
    pub fn new() -> Display
        ensures { result ≡ empty_slots }
    {
        Display { slots: [None; 8] }
    }

    /// Does what a command says, and gives the frame that is shown, if there is one.
    ///
    /// A coded frame goes into every slot whose bit is set in `refresh`. A command that names an empty slot is refused,
    /// and then every slot stays as it was.
    pub fn step(&mut self, command: &Command) -> Result<Option<u64>, EmptySlot>
        // An accepted command names no empty slot.
        ensures accepted { OnOk result (first_empty self.old command.now ≡ None) }
        ensures shown { IfOk result
            (λ frame. option_to_list frame ≡ shown_by self.old command.now) }
        ensures moved { OnOk result (self.new ≡ slots_after_one self.old command.now) }

        // A refused command changes nothing.
        ensures refused { IfErr result (λ e. first_empty self.old command.now ≡ Some e.slot) }
        ensures kept { OnErr result (self.new ≡ self.old) }

        // Eight slots remain.
        ensures eight { length self.new ≡ 8 }
    {
        if let Some(slot) = first_empty(&self.slots, command) {
            return Err(EmptySlot { slot });
        }
        match *command {
            Command::Code {
                frame,
                refresh: bits,
                shown,
                ..
            } => {
                refresh(&mut self.slots, bits, frame);
                Ok(shown.then_some(frame))
            }
            Command::Show { slot } => Ok(held(&self.slots, slot)),
        }
    }
}

// What a slot holds.
fn held(slots: &[Option<u64>], slot: u8) -> Option<u64>
    ensures { result ≡ held slots.now slot }
{
    slots.get(usize::from(slot)).copied().flatten()
}

// The first empty slot that a command names.
fn first_empty(slots: &[Option<u64>], command: &Command) -> Option<u8>
    ensures { result ≡ first_empty slots.now command.now }
{
    match command {
        Command::Code { refs, .. } => first_empty_ref(slots, refs),
        Command::Show { slot } => Some(*slot).filter(|slot| held(slots, *slot).is_none()),
    }
}

// The first empty slot of these.
fn first_empty_ref(slots: &[Option<u64>], refs: &Refs) -> Option<u8>
    ensures { result ≡ find (λ slot. not (is_some (held slots.now slot))) refs.now }
{
    for i in 0..refs.len() {
        let slot = refs.get(i);
        if held(slots, slot).is_none() {
            return Some(slot);
        }
    }
    None
}

// Puts a frame into each slot whose bit is set, the lowest bit for the first slot.
fn refresh(slots: &mut [Option<u64>], bits: u8, frame: u64)
    ensures { slots.new ≡ refreshed bits frame slots.old }
{
    let mut left = bits;
    for place in slots.iter_mut() {
        if left % 2 == 1 {
            *place = Some(frame);
        }
        left /= 2;
    }
}
