//! Cases as text, for the programs that play them.
//!
//! A file has blocks of lines with empty lines between them. A line that begins with `#` says what a block shows, or why.
//! The first other line of a block is the name of a case, and each further one a step: its words, and behind ` = ` what it
//! has to come to; where there is no `=`, nothing. A block whose first line is `steps NAME` is none itself: the step
//! `do NAME` of other blocks plays its steps. `times N STEP` plays a step N times, and it comes to the same each time. A line
//! `let NAME TEXT` names a text, which stands wherever `${NAME}` does.
//!
//! Where memory is refused, a step that finds none is played once more, and then has to come to what it has to; or what it plays
//! with has stopped for good, and the steps that it can't play are passed over. How many cases were short of memory is told.
#![tactic(auto)]

mod came;
mod fault;
mod play;
mod run;
mod script;
mod seen;
mod words;

pub use came::{put, put_debug};
pub use fault::StepFault;
pub use play::Player;
pub use run::play_files;
pub use seen::{refused, seen_of};
pub use words::Words;
