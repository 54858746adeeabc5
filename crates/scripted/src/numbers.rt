ghost use Rattle.std.specs.Prelude.{◌≡◌, ◌+◌, ◌==◌};

/// Whether rules speak by this number of a frame, where they speak of frame 0 by `first`.
pub(crate) fn is_number_of(number: u64, first: u64, frame: u64) -> bool
    ensures { result ≡ (number == first + frame) }
{
    number >= first && number - first == frame
}
