//! The connection to a node, as far as there is one.

ghost use Rattle.std.specs.Prelude.{◌≡◌};
ghost use Rattle.kp_network.specs.Links.{is_made};

/// The connection to a node.
#[derive(Drop)]
pub(crate) enum Link<K> {
    /// There is none.
    Away,
    /// It is being made.
    Dialing(K),
    /// It was made, and the engine has it.
    Made,
}

impl<K: Drop> Link<K> {
    /// Whether the engine has it.
    pub(crate) fn is_made(&self) -> bool
        ensures { result ≡ is_made self.now }
    {
        match self {
            Link::Away | Link::Dialing(_) => false,
            Link::Made => true,
        }
    }
}
