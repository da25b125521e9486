//! What a producer calls its topic and itself.

use kp_wire::Text;

/// What a producer calls its topic and itself.
#[derive(Debug, Drop)]
pub struct Names {
    pub topic: Text,
    /// The client's name in each request, for the broker's log.
    pub client: Text,
}
