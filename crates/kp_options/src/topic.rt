//! The names of topics.

ghost use Rattle.std.specs.Prelude.{◌≡◌, ◌↔◌, IsTrue};
ghost use Rattle.std.specs.List.{list_all};
ghost use Rattle.kp_options.specs.Topics.{is_name_byte, IsTopic};

/// The most bytes of a topic's name.
pub const TOPIC_LIMIT: usize = 249;

fn is_name_byte(b: u8) -> bool
    ensures { result ≡ is_name_byte b }
{
    matches!(b, b'A'..=b'Z' | b'a'..=b'z' | b'0'..=b'9' | b'.' | b'_' | b'-')
}

fn are_name_bytes(name: &[u8]) -> bool
    ensures { result ≡ list_all is_name_byte name.now }
{
    name.iter().all(|b| is_name_byte(*b))
}

/// Whether Kafka takes it as a topic's name.
pub fn is_topic(name: &str) -> bool
    ensures { IsTrue result ↔ IsTopic name.now }
{
    !name.is_empty()
        && name.len() <= TOPIC_LIMIT
        && name != "."
        && name != ".."
        && are_name_bytes(name.as_bytes())
}
