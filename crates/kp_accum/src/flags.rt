//! What makes every front batch ready.

ghost use Rattle.std.specs.Prelude.{◌≡◌};
ghost use Rattle.kp_accum.specs.Ready.{is_pressed};

/// What makes every front batch ready, however young and small it is.
#[derive(Clone, Copy, Debug, Default, PartialEq, Eq)]
pub struct Flags {
    /// An append was refused for want of buffer memory, and none was given back since.
    pub exhausted: bool,
    /// The producer is to be closed.
    pub closing: bool,
    /// A flush waits for its batches.
    pub flushing: bool,
}

impl Flags {
    /// Whether any of them is set.
    #[tactic(auto, unfolding(crate::specs::Ready::is_pressed))]
    pub fn is_pressed(self) -> bool
        ensures { result ≡ is_pressed self }
    {
        self.exhausted || self.closing || self.flushing
    }
}
