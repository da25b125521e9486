//! Laws of handshakes, from their beginning on, over any list of polls. They follow from what each poll ensures.

ghost use Rattle.std.specs.Prelude.{Ok, Err};
ghost use Rattle.kp_rules.specs.declared.names.Names.{Names};
ghost use Rattle.kp_hello.specs.declared.fault.HandshakeFault.{HandshakeFault};
ghost use Rattle.kp_hello.specs.declared.hello.Hello.{Hello};
ghost use Rattle.kp_connection.specs.Handshake.{Talking, Waits, Ends};
ghost use Rattle.kp_connection.specs.Introducing.{fresh, Waited, Speaks, Introduces, MetAWait};

use crate::stream::Stream;

/// A handshake that gives its hello wrote just its two requests, the second once the first answer was read and not
/// refused, and read just their answers.
pub fn a_hello_is_introduced<S: Stream>()
    ensures { (names : Names) (stream back : S) (last : Talking S) (hello : Hello)
        → Waited S.answers (fresh names stream) last → Ends S.answers last (Ok (hello, back))
        → Introduces S.answers names stream hello back }
{}

/// At a fault what was written is a beginning of the two requests, the second once the first answer was read and not
/// refused.
pub fn a_fault_leaves_a_beginning<S: Stream>()
    ensures { (names : Names) (stream : S) (last : Talking S) (fault : HandshakeFault)
        → Waited S.answers (fresh names stream) last → Ends S.answers last (Err fault)
        → (left : S) × Speaks S.answers names stream left }
{}

/// So it is behind each poll that waited.
pub fn a_wait_leaves_a_beginning<S: Stream>()
    ensures { (names : Names) (stream : S) (last : Talking S) → Waited S.answers (fresh names stream) last
        → Speaks S.answers names stream last.wire.stream }
{}

/// A poll that waited met a wait of the stream.
pub fn a_pending_poll_met_a_wait<S: Stream>()
    ensures { (old new : Talking S) → Waits S.answers old new
        → MetAWait S.answers old.wire.stream new.wire.stream }
{}
