//! References in transit. A space that sends a counted reference pins it until the receiver has
//! dealt with it, or until the session with the receiver has closed. A pin is a value that can't be
//! let go: it ends by the evidence of one or the other.
#![tactic(auto)]

mod bundle;
mod counts;
mod evidence;
mod fault;
mod peer;
mod pin;
mod table;

pub use evidence::Settled;
pub use fault::PinFault;
pub use pin::{TransitPin, give_up_all, spend_all};
pub use table::PinTable;
