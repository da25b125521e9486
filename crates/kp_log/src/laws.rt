//! Laws of the rule by which a log takes batches.

ghost use Rattle.std.specs.Prelude.{◌≡◌, ◌≢◌, ◌<◌, ◌++◌, [], ◌∷◌, ℕ, ℤ, pos, List, length, replicate, All, Contains, Ok};
ghost use Rattle.kp_batch.specs.declared.batch.Batch.{Batch};
ghost use Rattle.kp_batch.specs.declared.record.Record.{Record};
ghost use Rattle.kp_log.specs.declared.answer.Answer.TheVariants as answer;
ghost use Rattle.kp_log.specs.declared.answer.Refusal.{Refusal};
ghost use Rattle.kp_log.specs.declared.whim.Whim.{Whim};
ghost use Rattle.kp_log.specs.Log.{Log, empty, appended, others_appended};
ghost use Rattle.kp_log.specs.SequenceRule.{IsFirst, judged, unchanged, offered, offered_then};
ghost use Rattle.kp_log.specs.History.{Sent, History, arrived, empty_history, with_others};
ghost use Rattle.kp_log.specs.KeptBatches.{IsHistoryOf};
ghost use Rattle.kp_log.specs.BrokerStep.{BrokerStep, NO_ERROR, DUPLICATE_SEQUENCE_NUMBER, answered, offered_to, refused_unseen, offered_late};
ghost use Rattle.kp_log.specs.HandedOver.{Follows, AreInSequence, IsStored, CameBy, IsHonest};

/// A batch that comes twice is answered twice alike, and the second time nothing changes, whatever the
/// log and the batch.
pub fn a_batch_that_comes_twice_is_answered_alike()
    ensures { (log : Log) (b : Batch)
        → judged (judged log b).log b ≡ unchanged (judged log b).log (judged log b).answer }
{}

/// So a batch that was appended is not appended again: it is answered with the offset where it stands.
pub fn a_repeat_is_answered_with_its_offset()
    ensures { (log : Log) (b : Batch) (offset : ℤ)
        → judged log b ≡ record { answer = answer.Stored offset; log = appended log b }
        → judged (appended log b) b ≡ unchanged (appended log b) (answer.Stored offset) }
{}

/// A refusal leaves the log as it was.
pub fn a_refusal_changes_nothing()
    ensures { (log : Log) (b : Batch) (refusal : Refusal)
        → (judged log b).answer ≡ answer.Refused refusal
        → (judged log b).log ≡ log }
{}

/// The first batch of an empty log stands at offset 0, and is answered alike when it comes again.
pub fn a_first_batch_stands_at_zero()
    ensures stored { (b : Batch) → IsFirst b
        → judged empty b ≡ record { answer = answer.Stored (pos 0); log = appended empty b } }
    ensures again { (b : Batch) → IsFirst b
        → judged (appended empty b) b ≡ unchanged (appended empty b) (answer.Stored (pos 0)) }
{}

/// What a loopback broker does is what an honest broker may do: with a batch that was handed over, and in a
/// history that came by what was. Told to refuse, or to answer late, it may be given any batch and history.
pub fn loopback_is_a_broker()
    ensures offered { (handed : List Sent) (h : History) (b : Sent)
        → AreInSequence handed → CameBy handed h → Contains handed b
        → let o = offered_to h b in BrokerStep h b o.answer o.history }
    ensures refused { (h : History) (b : Sent) (code : ℤ)
        → code ≢ NO_ERROR → code ≢ DUPLICATE_SEQUENCE_NUMBER
        → let o = refused_unseen h code in BrokerStep h b o.answer o.history }
    ensures late { (h : History) (b : Sent) (code : ℤ)
        → code ≢ NO_ERROR → code ≢ DUPLICATE_SEQUENCE_NUMBER
        → let o = offered_late h b code in BrokerStep h b o.answer o.history }
{}

/// What that needs holds of the empty history, and stays: where one batch more is handed over, where another
/// producer appends records, and where a batch that was handed over is offered.
pub fn histories_come_by_what_is_handed_over()
    ensures nothing_handed { AreInSequence [] }
    ensures handed_over { (handed : List Sent) (b : Sent) → AreInSequence handed → Follows handed b
        → AreInSequence (handed ++ b ∷ []) }

    ensures empty { (handed : List Sent) → CameBy handed empty_history }
    ensures more_handed { (handed : List Sent) (b : Sent) (h : History) → CameBy handed h
        → CameBy (handed ++ b ∷ []) h }
    ensures others { (handed : List Sent) (h : History) (n : ℕ) (body : Record) → CameBy handed h
        → CameBy handed (with_others n body h) }
    ensures offered { (handed : List Sent) (h : History) (b : Sent)
        → AreInSequence handed → CameBy handed h → Contains handed b
        → CameBy handed (offered_to h b).history }
{}

/// A log that holds what its history says answers a batch as the loopback broker does, whatever base offset and
/// leader's epoch stand in it, and then holds what the history after it says.
pub fn offer_is_loopback()
    ensures answer { (h : History) (log : Log) (b : Sent) (offset leader_epoch : ℤ)
        → IsHistoryOf h log → All (IsStored h.records) h.batches → 0 < length b.bodies
        → answered (offered log (Ok (arrived offset leader_epoch b))).answer ≡ (offered_to h b).answer }
    ensures history { (h : History) (log : Log) (b : Sent) (offset leader_epoch : ℤ)
        → IsHistoryOf h log → All (IsStored h.records) h.batches → 0 < length b.bodies
        → IsHistoryOf (offered_to h b).history (offered log (Ok (arrived offset leader_epoch b))).log }

    ensures empty { IsHistoryOf empty_history empty }
    ensures others { (h : History) (log : Log) (n : ℕ) (body : Record)
        → IsHistoryOf h log → All (IsStored h.records) h.batches
        → IsHistoryOf (with_others n body h)
        (others_appended log (replicate n body)) }
{}

/// What a log does with a batch that was handed over, by `offer` or by `offer_then`, is what an honest broker may do,
/// whatever base offset and leader's epoch stand in the batch: where the log holds what a history says that came by
/// what was handed over. And then it holds such a history again.
pub fn offers_are_honest()
    ensures offer { (handed : List Sent) (h : History) (log : Log) (b : Sent)
        (offset leader_epoch : ℤ)
        → AreInSequence handed → CameBy handed h → Contains handed b → IsHistoryOf h log
        → IsHonest handed h b (offered log (Ok (arrived offset leader_epoch b))) }
    ensures offer_then { (handed : List Sent) (h : History) (log : Log) (b : Sent)
        (offset leader_epoch : ℤ) (whim : Whim)
        → AreInSequence handed → CameBy handed h → Contains handed b → IsHistoryOf h log
        → IsHonest handed h b (offered_then log whim (Ok (arrived offset leader_epoch b))) }
{}
