//! What the core answers.

use kp_accum::AppendFault;
use kp_cases::seen_of;
use kp_core::{Answered, Asked, CoreFault};

/// Whether the answer says that nothing goes out, or no reply was heard: then the core is to be as it was.
pub(crate) fn does_nothing(answer: &Answered) -> bool {
    match answer {
        Answered::Request(Ok(None) | Err(_)) | Answered::Reply(Err(_)) => true,
        Answered::Reply(Ok(replied)) => !replied.known,
        _ => false,
    }
}

/// Whether memory was refused to the call.
pub(crate) fn is_refused(answer: &Answered) -> bool {
    matches!(
        answer,
        Answered::Append(Err((AppendFault::OutOfMemory, _)))
            | Answered::Request(Err(CoreFault::OutOfMemory))
            | Answered::Reply(Err(CoreFault::OutOfMemory))
    )
}

/// What the item shows of itself that a call appends, if it appends one.
pub(crate) fn item_in(asked: &Asked) -> Option<u64> {
    match asked {
        Asked::Append(item) => Some(seen_of(item)),
        _ => None,
    }
}

/// The same of the item that comes back.
pub(crate) fn item_back(answer: &Answered) -> Option<u64> {
    match answer {
        Answered::Append(Err((_, back))) => Some(seen_of(back)),
        _ => None,
    }
}
