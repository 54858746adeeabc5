ghost use Rattle.std.specs.Prelude.{◌≡◌};
ghost use Rattle.session_channels.specs.Queues.{next_count};

/// How often a queue answered each refusal. A count stops at its type's last value.
#[derive(Clone, Copy, Debug, PartialEq, Eq)]
pub struct Counts {
    /// Puts refused since the queue held its capacity.
    pub full: u64,
    /// Takes refused since there was no message.
    pub empty: u64,
    /// Puts and takes refused since the queue was closed.
    pub closed: u64,
    /// Puts refused since memory ran out.
    pub out_of_memory: u64,
}

impl Counts {
    /// Nothing was refused.
    pub const NONE: Counts = Counts {
        full: 0,
        empty: 0,
        closed: 0,
        out_of_memory: 0,
    };
}

// One more, up to the last value of a count.
pub(crate) fn next_count(count: u64) -> u64
    ensures { result ≡ next_count count }
{
    if count < u64::MAX { count + 1 } else { count }
}
