//! Laws of the definitions on requests.

ghost use Rattle.std.specs.Prelude.{◌≡◌, List, Ok, Some, ℕ};
ghost use Rattle.kp_accum.specs.declared.config.Config.{Config};
ghost use Rattle.kp_rules.specs.Calls.{Call, Life, Lives, WentOut};
ghost use Rattle.kp_rules.specs.Framing.{FitsPacket};
ghost use Rattle.kp_rules.specs.InOrder.{IsInOrder};
ghost use Rattle.kp_rules.specs.Next.{Sending};
ghost use Rattle.kp_rules.specs.Opening.{new_core};
ghost use Rattle.kp_rules.specs.Records.{Core};
ghost use Rattle.kp_rules.specs.Requesting.{AsksOfLed, Packet, request_step};
ghost use Rattle.kp_rules.specs.declared.names.Names.{Names};

/// Whatever request a core in order gives can be written: each batch in it has a spelling, and so has its message, one
/// that fits a frame. So where a request is to go out (`RequestNeedsMemory`), want of memory is the only reason why no
/// frame is written.
pub fn a_request_always_fits()
    ensures { (node now : ℕ) (s : Core) (packet : Packet)
        → IsInOrder s
        → (request_step node now s).answer ≡ Ok (Some packet)
        → FitsPacket s.config s.names packet }
{}

/// A request to a node asks for nothing but for what this node leads: its batches are of partitions that it leads, and so
/// is the partition for which it asks for an id.
pub fn a_request_asks_of_what_its_node_leads()
    ensures { (node now : ℕ) (s : Core) (packet : Packet)
        → (request_step node now s).answer ≡ Ok (Some packet)
        → AsksOfLed node s packet.demand }
{}

/// Whatever calls a new core hears, a batch goes out with the same records, producer id and base sequence each time:
/// what goes out for one partition under one number is one batch.
pub fn a_batch_goes_out_the_same_each_time()
    ensures { (c : Config) (n : Names) (partitions senders id correlation : ℕ)
        (calls : List Call) (life : Life) (t : Core) (x y : Sending)
        → Lives (new_core c n partitions senders id correlation) calls life t
        → WentOut life x
        → WentOut life y
        → x.partition ≡ y.partition
        → x.batch.number ≡ y.batch.number
        → x.batch ≡ y.batch }
{}
