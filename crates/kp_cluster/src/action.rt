//! What the owner of a cluster is to do.

/// What the owner of a cluster is to do with a slot's connection.
#[derive(Clone, Copy, Debug, PartialEq, Eq)]
pub enum Action {
    /// To connect to the slot's address.
    Connect(u32),
    /// To close the connection, or to give up opening it; then it is lost.
    Close(u32),
}
