//! The error codes that say nothing of a batch.

ghost use Rattle.std.specs.Prelude.{◌≡◌, ◌↔◌, IsSome, IfSome};
ghost use Rattle.kp_log.specs.ErrorCode.{IsErrorCode};

/// Kafka's number of no error.
const NO_ERROR: i16 = 0;

/// Kafka's DUPLICATE_SEQUENCE_NUMBER.
const DUPLICATE_SEQUENCE_NUMBER: i16 = 46;

/// An error code of Kafka's protocol guide that says nothing of a batch: any number but 0, which says that it stands in
/// the log, and 46, which says that it stands there long since.
#[derive(Clone, Copy, Debug, PartialEq, Eq)]
pub struct ErrorCode {
    number: i16,
    ghost is_error: { IsErrorCode number },
}

impl ErrorCode {
    ghost use Rattle.kp_log.specs.Answer.{number_of};

    /// The code of this number, if it is one.
    pub fn new(number: i16) -> Option<ErrorCode>
        ensures known { IsSome result ↔ IsErrorCode number }
        ensures value { IfSome result (λ code. number_of code ≡ number) }
    {
        if number == NO_ERROR || number == DUPLICATE_SEQUENCE_NUMBER {
            return None;
        }
        Some(ErrorCode { number })
    }

    /// Kafka's number.
    pub fn get(self) -> i16
        ensures value { result ≡ number_of self }
        ensures is_error { IsErrorCode result }
    {
        self.number
    }
}
