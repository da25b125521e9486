//! What is known of a value by its type.

ghost use Rattle.std.specs.Prelude.{◌<◌, ◌^◌, All};
ghost use Rattle.std.specs.Str.{IsUtf8};
ghost use Rattle.kp_rules.specs.Held.{IsRecord};

use kp_batch::Record;
use kp_core::Core;

/// A record's moment is an int64, and the keys of its headers are texts.
pub(crate) fn see_record(body: &Record)
    ensures { IsRecord body.now }
{
    let _moment = body.timestamp.millis();
    for header in body.headers.as_slice() {
        let _key = header.key.as_str();
    }
}

/// A core's names are texts.
pub(crate) fn see_names(core: &Core)
    ensures topic { IsUtf8 core.now.names.topic }
    ensures client { IsUtf8 core.now.names.client }
{
    let names = core.names();
    let _topic = names.topic.as_str();
    let _client = names.client.as_str();
}

/// Bytes are bytes.
pub(crate) fn see_bytes(bytes: &[u8])
    ensures { All (λ byte. byte < 2 ^ 8) bytes.now }
{
    for byte in bytes {
        let _byte = *byte;
    }
}
