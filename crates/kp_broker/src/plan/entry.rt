//! One entry of a plan, read from its text.

ghost use Rattle.std.specs.Prelude.{◌≡◌, ◌≢◌, ◌<◌, ◌^◌, ℕ, MatchOption};
ghost use Rattle.kp_broker.specs.Plan.{SpelledBy, IsAllowed, IsAllowedAction, IsAllowedCode, IsAllowedNode, HasName, action_text, code_text, entry_text};
ghost use Rattle.std.specs.Fmt.{decimal};

use super::Action;
use kp_log::ErrorCode;

/// The greatest code that a plan may name.
const MAX_CODE: u64 = 99;

/// The greatest node that a cluster may have.
const MAX_NODE: u64 = 63;

/// A number in decimal digits, with no sign and no leading zero but `0` itself.
fn number_of(text: &str) -> Option<u64>
    ensures { SpelledBy (λ n. n < 2 ^ 64) decimal text.now result }
{
    if text.starts_with('+') {
        return None;
    }
    if text.len() > 1 && text.starts_with('0') {
        return None;
    }
    text.parse().ok()
}

fn code_of(text: &str) -> Option<ErrorCode>
    ensures { SpelledBy IsAllowedCode code_text text.now result }
{
    let code = number_of(text)?;
    if code > MAX_CODE {
        return None;
    }
    ErrorCode::new(code as i16)
}

fn node_of(text: &str) -> Option<u16>
    ensures { SpelledBy IsAllowedNode decimal text.now result }
{
    let node = number_of(text)?;
    if node > MAX_NODE {
        return None;
    }
    Some(node as u16)
}

/// An action that names a code or a node.
fn named_action_of(text: &str) -> Option<Action>
    ensures { SpelledBy HasName action_text text.now result }
{
    let (word, name) = text.split_once(':')?;
    match word {
        "refuse" => Some(Action::Refuse(code_of(name)?)),
        "late" => Some(Action::Late(code_of(name)?)),
        "move" => Some(Action::Move(node_of(name)?)),
        _ => None,
    }
}

fn action_of(text: &str) -> Option<Action>
    ensures { SpelledBy IsAllowedAction action_text text.now result }
{
    match text {
        "drop-request" => Some(Action::DropRequest),
        "drop-reply" => Some(Action::DropReply),
        "repeat" => Some(Action::Repeat),
        "hang-up" => Some(Action::HangUp),
        _ => named_action_of(text),
    }
}

/// The entry that a text spells, if it spells one.
pub fn entry_of(text: &str) -> Option<(u64, Action)>
    ensures { SpelledBy IsAllowed entry_text text.now result }
{
    let (number, action) = text.split_once('=')?;
    let number = number_of(number)?;
    if number == u64::MAX {
        return None;
    }
    Some((number, action_of(action)?))
}
