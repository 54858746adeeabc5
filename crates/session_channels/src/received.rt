ghost use Rattle.std.specs.Prelude.{◌≡◌, None, Result};
ghost use Rattle.session_channels.specs.declared.errors.RecvError.{RecvError as RecvRefusal};

use crate::RecvError;

/// A receiver whose messages an iterator gives.
pub trait Receive {
    /// What is received.
    type Message;

    /// What one `recv` means: the receiver before, the answer, and the receiver after.
    ghost recv_gives: { Self → Result Self.Message RecvRefusal → Self → Type 0 };

    /// Waits for the next message.
    fn recv(&mut self) -> Result<Self::Message, RecvError>
        ensures { recv_gives self.old result self.new };
}

/// The messages that a receiver gets, one `recv` after the other. It gives None exactly from the first error of `recv` on,
/// which `ended` then tells.
#[derive(Drop)]
pub struct Received<'a, E> {
    end: &'a mut E,
    ended: Option<RecvError>,
}

impl<'a, E: Receive> Received<'a, E> {
    pub(crate) fn new(end: &'a mut E) -> Received<'a, E>
        ensures same_reference { result.end.ghost_name ≡ end.entry.ghost_name }
        ensures end { result.end.now ≡ end.old }
        ensures ended { result.ended ≡ None }
    {
        Received { end, ended: None }
    }

    /// The error of `recv` that ended it, if one did.
    pub fn ended(&self) -> Option<RecvError>
        ensures { result ≡ self.now.ended }
    {
        self.ended
    }
}

impl<'a, E: Receive> Iterator for Received<'a, E> {
    ghost use Rattle.std.specs.Prelude.{◌≡◌};
    ghost use Rattle.session_channels.specs.Ends.{IsNext};

    type Item = E::Message;

    ghost next_gives = { λ before item now.
        (now.end.ghost_name ≡ before.end.ghost_name)
        × IsNext E.recv_gives before.end.now before.ended item now.end.now now.ended };

    fn next(&mut self) -> Option<E::Message> {
        if self.ended.is_some() {
            return None;
        }
        match self.end.recv() {
            Ok(message) => Some(message),
            Err(error) => {
                self.ended = Some(error);
                None
            }
        }
    }
}
