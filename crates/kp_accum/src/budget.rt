//! The memory for records that wait, as charges against a limit.

ghost use Rattle.std.specs.Prelude.{◌≡◌, ◌+◌, ◌-◌, ◌≤◌, nat_le};

use std::marker::Model;

/// How much of a limit is used: seen as both numbers, in bytes.
#[derive(Debug, Drop)]
pub struct Budget {
    used: u64,
    limit: u64,
}

impl Model for Budget {
    ghost use Rattle.std.specs.Prelude.{◌≤◌};
    ghost use Rattle.kp_accum.specs.Budget.{Budget};

    ghost Value = { Budget };

    ghost view = { λ b. record { used = b.used; limit = b.limit } };

    ghost invariant = { λ b. b.used ≤ b.limit };
}

impl Budget {
    /// A budget of which nothing is used.
    pub fn new(limit: u64) -> Budget
        ensures { result ≡ record { used = 0; limit = limit } }
    {
        Budget { used: 0, limit }
    }

    /// The sum of the charges that were taken and not released.
    pub fn used(&self) -> u64
        ensures value { result ≡ self.now.used }
        ensures within { result ≤ self.now.limit }
    {
        self.used
    }

    /// Whether the charge is within the limit with what is used.
    pub fn has_room(&self, charge: u64) -> bool
        ensures { result ≡ nat_le (self.now.used + charge) self.now.limit }
    {
        charge <= self.limit - self.used
    }

    /// Takes a charge for which there is room.
    pub fn take(&mut self, charge: u64)
        requires { self.old.used + charge ≤ self.old.limit }
        ensures { self.new ≡ record self.old { used = self.old.used + charge } }
    {
        self.used += charge;
    }

    /// Gives back a charge, of at most what is used.
    pub fn release(&mut self, charge: u64)
        requires { charge ≤ self.old.used }
        ensures { self.new ≡ record self.old { used = self.old.used - charge } }
    {
        self.used -= charge;
    }
}
