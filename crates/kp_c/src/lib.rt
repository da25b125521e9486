//! The C face of a producer: `include/kp.h` declares it. Each call is one of `kp_embed`'s on the producer of a handle.
#![tactic(auto)]

mod connections;
mod ending;
mod handle;
mod making;
mod parts;
mod records;
mod sending;
mod status;
mod time;
mod values;
mod words;
