//! A file of settings, as Kafka's tools read it: lines `name=value`, and comments behind `#` or `!`.

ghost use Rattle.std.specs.Prelude.{◌≡◌, ◌++◌, List, String, drop, take, IfOk};
ghost use Rattle.std.specs.declared.alloc.Global.{Global};

use std::alloc::{AllocError, Global};

/// Why a file of settings can't be meant: which line, from 1, and which name.
#[derive(Clone, Copy, Debug, PartialEq, Eq)]
pub(crate) enum SettingsFault<'t> {
    /// The line is not `name=value`.
    NoSetting(u64),
    /// There is no setting of this name for `send`.
    Unknown(u64, &'t str),
    /// The setting of this name can't have another value than the one that it has here.
    Fixed(u64, &'t str),
    OutOfMemory,
}

impl From<AllocError> for SettingsFault<'_> {
    fn from(_refused: AllocError) -> Self {
        SettingsFault::OutOfMemory
    }
}

/// A line of the file: an option and its value.
#[derive(Clone, Copy, Debug)]
struct Setting<'t> {
    option: &'static str,
    /// The option's other name.
    other: &'static str,
    value: &'t str,
}

/// The options of a setting by Kafka's name.
fn options_of(name: &str) -> Option<(&'static str, &'static str)> {
    Some(match name {
        "bootstrap.servers" => ("--broker", "--broker"),
        "client.id" => ("--client.id", "--client.id"),
        "batch.size" => ("--batch.size", "--batch-size"),
        "linger.ms" => ("--linger.ms", "--linger"),
        "buffer.memory" => ("--buffer.memory", "--buffer.memory"),
        "max.request.size" => ("--max.request.size", "--max.request.size"),
        "max.in.flight.requests.per.connection" => (
            "--max.in.flight.requests.per.connection",
            "--max-in-flight",
        ),
        "request.timeout.ms" => ("--request.timeout.ms", "--request-timeout"),
        "delivery.timeout.ms" => ("--delivery.timeout.ms", "--delivery.timeout.ms"),
        "retry.backoff.ms" => ("--retry.backoff.ms", "--retry.backoff.ms"),
        "reconnect.backoff.ms" => ("--reconnect.backoff.ms", "--reconnect.backoff.ms"),
        "reconnect.backoff.max.ms" => ("--reconnect.backoff.max.ms", "--reconnect.backoff.max.ms"),
        "metadata.max.age.ms" => ("--metadata.max.age.ms", "--metadata.max.age.ms"),
        "socket.connection.setup.timeout.ms" => (
            "--socket.connection.setup.timeout.ms",
            "--socket.connection.setup.timeout.ms",
        ),
        _ => return None,
    })
}

/// Whether a setting that is no option has this value here, whatever is said; None of another name.
fn is_as_here(name: &str, value: &str) -> Option<bool> {
    match name {
        "acks" => Some(value == "all" || value == "-1"),
        "enable.idempotence" => Some(value == "true"),
        "compression.type" => Some(value == "none"),
        "security.protocol" => Some(value == "PLAINTEXT"),
        _ => None,
    }
}

/// What a line says, if anything.
fn setting_in(number: u64, line: &str) -> Result<Option<Setting<'_>>, SettingsFault<'_>> {
    let line = line.trim();
    if line.is_empty() || line.starts_with('#') || line.starts_with('!') {
        return Ok(None);
    }
    let Some((name, value)) = line.split_once('=') else {
        return Err(SettingsFault::NoSetting(number));
    };
    let (name, value) = (name.trim(), value.trim());
    if let Some((option, other)) = options_of(name) {
        return Ok(Some(Setting {
            option,
            other,
            value,
        }));
    }
    match is_as_here(name, value) {
        Some(true) => Ok(None),
        Some(false) => Err(SettingsFault::Fixed(number, name)),
        None => Err(SettingsFault::Unknown(number, name)),
    }
}

/// Whether the words of a call have this option.
fn is_said(words: &[String], option: &str) -> bool {
    words.iter().any(|word| match word.as_str().strip_prefix(option) {
        Some(rest) => rest.is_empty() || rest.starts_with('='),
        None => false,
    })
}

/// One setting more, in the place of an earlier one of its name.
fn put<'t>(settings: &mut Vec<Setting<'t>>, setting: Setting<'t>) -> Result<(), AllocError> {
    settings.retain(|earlier| earlier.option != setting.option);
    Ok(settings.push(setting)?)
}

/// The settings of a file, each once: of several lines of one name the last.
fn settings_in<'t>(alloc: Global, text: &'t str) -> Result<Vec<Setting<'t>>, SettingsFault<'t>> {
    let mut settings = Vec::new(alloc);
    let mut number = 0u64;
    for line in text.lines() {
        number = number.saturating_add(1);
        if let Some(setting) = setting_in(number, line)? {
            put(&mut settings, setting)?;
        }
    }
    Ok(settings)
}

/// The words for those settings that the words of a call don't speak of.
fn words_for(
    alloc: Global,
    words: &[String],
    settings: &[Setting<'_>],
) -> Result<Vec<String>, AllocError> {
    let mut added = Vec::new(alloc);
    for setting in settings {
        if !is_said(words, setting.option) && !is_said(words, setting.other) {
            added.push(format!(in alloc; "{}={}", setting.option, setting.value)?)?;
        }
    }
    Ok(added)
}

/// The file of settings that the words of a call name, where they name one.
pub(crate) fn settings_file(words: &[String]) -> Option<&str> {
    let mut is_next = false;
    for word in words {
        let word = word.as_str();
        if is_next {
            return Some(word);
        }
        if let Some(file) = word.strip_prefix("--config=") {
            return Some(file);
        }
        is_next = word == "--config";
    }
    None
}

/// The words of a call, with what a file of settings says besides, as options behind the first two words; what the words say
/// counts, and not the file.
pub(crate) fn with_settings<'t>(
    alloc: Global,
    words: Vec<String>,
    text: &'t str,
) -> Result<Vec<String>, SettingsFault<'t>>
    ensures { IfOk result (λ all. (added : List (String Global)) × (all.items
        ≡ take 2 words.items ++ added ++ drop 2 words.items)) }
{
    let settings = settings_in(alloc, text)?;
    let mut added = words_for(alloc, &words, &settings)?;
    let mut all = words;
    let mut rest = all.split_off(all.len().min(2))?;
    all.append(&mut added)?;
    all.append(&mut rest)?;
    Ok(all)
}
