//! Where the broker is.

ghost use Rattle.std.specs.Prelude.{◌≡◌, option_map};
ghost use Rattle.kp_options.specs.Places.{plan_text};

use std::net::SocketAddr;

/// Where the broker is.
#[derive(Clone, Copy, Debug)]
pub enum Place<'a> {
    /// In this process, and some of the Produce requests are not answered as they come, where a plan says so.
    Here(Option<&'a str>),
    /// At an address.
    At(SocketAddr),
}

impl<'a> Place<'a> {
    /// The text of the plan, where there is one.
    pub fn plan_text(self) -> Option<&'a str>
        ensures { option_map (λ text. text.now) result ≡ plan_text self.entry }
    {
        match self {
            Place::Here(text) => text,
            Place::At(_) => None,
        }
    }
}
