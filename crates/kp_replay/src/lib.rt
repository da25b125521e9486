//! A schedule's replay: the sender core, partition logs and all that travelled between them, event by event.
#![tactic(auto)]

mod accepted;
mod broker;
mod fetching;
mod happened;
mod line;
mod opening;
mod packets;
mod replaying;
mod text;
mod world;

pub use happened::Happened;
pub use line::{AnswerPart, Line, SentPart};
pub use replaying::replay;
pub use world::World;
