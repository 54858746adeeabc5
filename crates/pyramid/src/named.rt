//! Which slots a frame names, from those that it may name.

ghost use Rattle.std.specs.Prelude.{◌≡◌, ◌+◌, ◌%◌, ◌<◌, ◌∷◌, [], if◌then◌else◌};
ghost use Rattle.pyramid.specs.RowCommand.{distinct};

use crate::Refs;

// What a frame of level 0 in this slot names.
pub(crate) fn level_zero(multiref: bool, slot: u8) -> Refs
    requires { slot < 4 }
    ensures { result ≡ (slot + 3) % 4 ∷ (if multiref then (slot + 2) % 4 ∷ [] else []) }
{
    let last = (slot + 3) % 4;
    if multiref {
        return Refs::of_two(last, (slot + 2) % 4);
    }
    Refs::of_one(last)
}

// Three slots, each once.
pub(crate) fn between(before: u8, after: u8, own: u8) -> Refs
    requires before { before < 8 }
    requires after { after < 8 }
    requires own { own < 8 }
    ensures { result ≡ distinct (before ∷ after ∷ own ∷ []) }
{
    if after == before {
        if own == before {
            return Refs::of_one(before);
        }
        return Refs::of_two(before, own);
    }
    if own == before || own == after {
        return Refs::of_two(before, after);
    }
    Refs::of_three(before, after, own)
}
