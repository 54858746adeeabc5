ghost use Rattle.std.specs.Prelude.{◌≡◌, ◌<◌, ◌≤◌, [], ◌∷◌, length, slice_index, if◌then◌else◌, IsTrue};
ghost use Rattle.pyramid.specs.AreSlots.{are_slots};

use std::marker::Model;

#[derive(Clone, Copy, Debug, PartialEq, Eq)]
enum Slots {
    Zero,
    One(u8),
    Two(u8, u8),
    Three(u8, u8, u8),
}

/// At most three reference slots, in order (ref_frame_idx, each slot once). Contracts see the list of the slots, which
/// are at most 7 and distinct.
#[derive(Clone, Copy, Debug, PartialEq, Eq)]
pub struct Refs {
    slots: Slots,
}

impl Model for Refs {
    ghost use Rattle.std.specs.Prelude.{List, ℕ, IsTrue};
    ghost use Rattle.std.specs.Coded.{coded_list, coded_ℕ};

    ghost Value = { List ℕ };

    ghost coded = { coded_list coded_ℕ };

    ghost use Rattle.pyramid.specs.AreSlots.{are_slots};
    ghost use Rattle.pyramid.specs.Refs.{slots_listed, slots_of, slots_of-slots_listed};

    ghost view = { λ r. slots_listed r.slots };

    ghost invariant = { λ r. IsTrue (are_slots (slots_listed r.slots)) };

    ghost inverse = { λ slots. record { slots = slots_of slots } };

    ghost inverse_ok = { λ a h. slots_of-slots_listed a };
}

impl Refs {
    /// These slots in order; None exactly where there are more than three, one is above 7, or two are equal.
    pub fn new(slots: &[u8]) -> Option<Refs>
        ensures { result ≡ (if are_slots slots.now then Some slots.now else None) }
    {
        match *slots {
            [] => Some(Refs::none()),
            [a] => one(a),
            [a, b] => two(a, b),
            [a, b, c] => three(a, b, c),
            _ => None,
        }
    }

    /// The number of slots, 0 to 3.
    pub fn len(&self) -> usize
        ensures value { result ≡ length self.now }
        ensures slots { IsTrue (are_slots self.now) }
    {
        match self.slots {
            Slots::Zero => 0,
            Slots::One(_) => 1,
            Slots::Two(_, _) => 2,
            Slots::Three(_, _, _) => 3,
        }
    }

    /// The slot at this place.
    pub fn get(&self, i: usize) -> u8
        requires { i < length self.now }
        ensures value { result ≡ slice_index self.now i }
        ensures small { result ≤ 7 }
    {
        match self.slots {
            Slots::Zero => 0,
            Slots::One(a) => a,
            Slots::Two(a, b) => [a, b][i],
            Slots::Three(a, b, c) => [a, b, c][i],
        }
    }
}

impl Refs {
    // No slot.
    pub(crate) fn none() -> Refs
        ensures { result ≡ [] }
    {
        Refs { slots: Slots::Zero }
    }

    // One slot.
    pub(crate) fn of_one(a: u8) -> Refs
        requires { IsTrue (are_slots (a ∷ [])) }
        ensures { result ≡ a ∷ [] }
    {
        Refs {
            slots: Slots::One(a),
        }
    }

    // Two slots.
    pub(crate) fn of_two(a: u8, b: u8) -> Refs
        requires { IsTrue (are_slots (a ∷ b ∷ [])) }
        ensures { result ≡ a ∷ b ∷ [] }
    {
        Refs {
            slots: Slots::Two(a, b),
        }
    }

    // Three slots.
    pub(crate) fn of_three(a: u8, b: u8, c: u8) -> Refs
        requires { IsTrue (are_slots (a ∷ b ∷ c ∷ [])) }
        ensures { result ≡ a ∷ b ∷ c ∷ [] }
    {
        Refs {
            slots: Slots::Three(a, b, c),
        }
    }
}

fn one(a: u8) -> Option<Refs>
    ensures { result ≡ (if are_slots (a ∷ []) then Some (a ∷ []) else None) }
{
    if a > 7 {
        return None;
    }
    Some(Refs::of_one(a))
}

fn two(a: u8, b: u8) -> Option<Refs>
    ensures { result ≡ (if are_slots (a ∷ b ∷ []) then Some (a ∷ b ∷ []) else None) }
{
    if a > 7 || b > 7 || a == b {
        return None;
    }
    Some(Refs::of_two(a, b))
}

fn three(a: u8, b: u8, c: u8) -> Option<Refs>
    ensures { result ≡ (if are_slots (a ∷ b ∷ c ∷ []) then Some (a ∷ b ∷ c ∷ []) else None) }
{
    if a > 7 || b > 7 || c > 7 || a == b || a == c || b == c {
        return None;
    }
    Some(Refs::of_three(a, b, c))
}
