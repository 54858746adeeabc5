ghost use Rattle.std.specs.Prelude.{◌≡◌};
ghost use Rattle.gop_channel.specs.Driving.{ends_by};

use session_channels::ChannelFault;

/// Why a run over queues ended before all was coded.
#[derive(Debug, Drop)]
pub struct GopEnd<C> {
    /// What the receiver of packets is told.
    pub fault: ChannelFault,
    /// The coder that failed, as its calls left it; with the fault of a coder alone.
    pub coder: Option<C>,
}

impl<C: Drop> GopEnd<C> {
    // An end without a coder.
    pub(crate) fn by(fault: ChannelFault) -> Result<(), GopEnd<C>>
        ensures { result ≡ ends_by fault }
    {
        Err(GopEnd { fault, coder: None })
    }
}
