//! What a seat at the gate knows.

/// Where a seat stands.
pub enum Stage {
    Out,
    /// It was counted, and found the gate shut.
    Trying,
    Inside,
}

/// What a seat knows. No value of it is made: it is what contracts speak of.
pub struct View {
    /// For how many senders the seat stands.
    pub room: u64,
    pub stage: Stage,
    pub knows_shut: bool,
    /// How often the seat has looked at the word.
    pub looks: u64,
    /// The word that it found at its last look.
    pub found: u64,
    /// The gate is shut, and no seat is inside.
    pub knows_quiet: bool,
    /// Whether the seat may shut the gate: at most one may.
    pub may_shut: bool,
}
