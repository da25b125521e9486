//! What has a record in it, so that a list of such things is written with no copy of a record.

ghost use Rattle.std.specs.Prelude.{◌≡◌};
ghost use Rattle.kp_batch.specs.declared.record.Record.{Record as RecordValue};

use crate::record::Record;

/// What has a record in it.
pub trait AsRecord {
    /// The record in it.
    ghost body: { Self → RecordValue };

    fn as_record(&self) -> &Record
        ensures { result.now ≡ body self.now };
}

impl AsRecord for Record {
    ghost body = { λ r. r };

    fn as_record(&self) -> &Record {
        self
    }
}
