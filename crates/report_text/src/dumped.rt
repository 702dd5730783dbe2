use message_core::PeerFault;
use rp_base::Text;

/// A stream of frames as text, with the first fault that shows in it.
#[derive(Drop)]
pub struct Dump {
    /// The lines, each with its line feed.
    pub text: Text,
    /// The fault of the last line, where there is one.
    pub fault: Option<PeerFault>,
}
