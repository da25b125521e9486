//! Laws of the definitions that this crate's contracts cite.

ghost use Rattle.std.specs.Prelude.{◌≡◌, ◌++◌, ℕ, List, []};
ghost use Rattle.kp_connection.specs.Answers.{Answer, came};
ghost use Rattle.kp_connection.specs.Wire.{Wired, Goes, Breaks, Stops};
ghost use Rattle.kp_frames.specs.Life.{behind};
ghost use Rattle.kp_frames.specs.Stream.{stream};

use crate::stream::Stream;

/// Where no call is made, nothing goes.
pub fn nothing_goes<S: Stream>()
    ensures { (a : Wired S) → Goes S.answers a [] [] [] a }
{}

/// What goes in two stretches goes in one.
pub fn stretches_join<S: Stream>()
    ensures { (a b c : Wired S) (sent heard more news : List (List ℕ)) (xs ys : List Answer)
        → Goes S.answers a sent heard xs b → Goes S.answers b more news ys c
        → Goes S.answers a (sent ++ more) (heard ++ news) (xs ++ ys) c }
{}

/// A stretch at whose end bytes are given up does so behind one that gives up nothing.
pub fn stops_behind<S: Stream>()
    ensures { (a b c : Wired S) (sent heard more news : List (List ℕ)) (xs ys : List Answer)
        → Goes S.answers a sent heard xs b → Stops S.answers b more news ys c
        → Stops S.answers a (sent ++ more) (heard ++ news) (xs ++ ys) c }
{}

/// So does one in which the size of no frame was read.
pub fn breaks_behind<S: Stream>()
    ensures { (a b c : Wired S) (sent heard more news : List (List ℕ)) (xs ys : List Answer)
        → Goes S.answers a sent heard xs b → Breaks S.answers b more news ys c
        → Breaks S.answers a (sent ++ more) (heard ++ news) (xs ++ ys) c }
{}

/// After the size of no frame was read, what is held can still be written and heard.
pub fn breaks_before<S: Stream>()
    ensures { (a b c : Wired S) (sent heard more news : List (List ℕ)) (xs ys : List Answer)
        → Breaks S.answers a sent heard xs b → came ys ≡ [] → Goes S.answers b more news ys c
        → Breaks S.answers a (sent ++ more) (heard ++ news) (xs ++ ys) c }
{}

/// A stretch that gives up nothing is one that may.
pub fn goes_stops<S: Stream>()
    ensures { (a b : Wired S) (sent heard : List (List ℕ)) (xs : List Answer)
        → Goes S.answers a sent heard xs b → Stops S.answers a sent heard xs b }
{}

/// A stretch in which the size of no frame was read is one that may give up bytes.
pub fn breaks_stops<S: Stream>()
    ensures { (a b : Wired S) (sent heard : List (List ℕ)) (xs : List Answer)
        → Breaks S.answers a sent heard xs b → Stops S.answers a sent heard xs b }
{}

/// While nothing is given up, what was heard, the frames at hand and the rest are the stream of the bytes read.
pub fn frames_heard_and_held_are_those_of_the_stream<S: Stream>()
    ensures { (a b : Wired S) (sent heard : List (List ℕ)) (xs : List Answer) → Goes S.answers a sent heard xs b
        → stream (a.held ++ came xs) ≡ behind heard (stream b.held) }
{}

/// Also where bytes were given up, what was heard are the first frames of the stream of the bytes read.
pub fn frames_heard_are_the_first_of_the_stream<S: Stream>()
    ensures { (a b : Wired S) (sent heard : List (List ℕ)) (xs : List Answer) → Stops S.answers a sent heard xs b
        → (more : List (List ℕ)) × ((stream (a.held ++ came xs)).frames ≡ heard ++ more) }
{}
