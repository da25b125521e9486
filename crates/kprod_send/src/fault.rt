//! Why lines are not sent, or no more.

use crate::settings::SettingsFault;
use kp_accum::ConfigFault;
use kp_bootstrap::BootstrapFault;
use kp_program::{FAULT, OUT_OF_MEMORY, USAGE, put_cannot_read};
use kp_publish::PublishFault;
use std::alloc::AllocError;
use std::io::{self, ErrorKind, Write};

/// Why lines are not sent, or no more.
#[derive(Clone, Copy, Debug, PartialEq, Eq)]
pub(crate) enum Fault<'a> {
    /// A file of settings that is no text.
    NoSettings(&'a str),
    /// What a file of settings says that can't be meant.
    Settings(&'a str, SettingsFault<'a>),
    OutOfMemory,
    Topic,
    Client,
    Config(ConfigFault),
    Brokers(BootstrapFault),
    /// The file as the words named it.
    CannotRead(&'a str),
    CannotWrite(&'a str),
    /// A file that is read can't be written too.
    IsRead(&'a str),
    Publish(PublishFault),
}

impl<'a> Fault<'a> {
    /// Why a file of settings could not be read.
    pub(crate) fn of_settings(error: &io::Error, file: &'a str) -> Fault<'a> {
        match error.kind() {
            ErrorKind::InvalidData => Fault::NoSettings(file),
            _ => Fault::of(error, Fault::CannotRead(file)),
        }
    }

    /// Memory that was refused, or else this fault.
    pub(crate) fn of(error: &io::Error, fault: Fault<'a>) -> Fault<'a> {
        match error.kind() {
            ErrorKind::OutOfMemory => Fault::OutOfMemory,
            _ => fault,
        }
    }

    /// The exit status.
    pub(crate) fn status(self) -> u8 {
        match self {
            Fault::NoSettings(_)
            | Fault::Settings(
                _,
                SettingsFault::NoSetting(_)
                | SettingsFault::Unknown(_, _)
                | SettingsFault::Fixed(_, _),
            )
            | Fault::Topic
            | Fault::Client
            | Fault::Config(_)
            | Fault::Brokers(
                BootstrapFault::Empty | BootstrapFault::Address | BootstrapFault::TooMany,
            )
            | Fault::IsRead(_) => USAGE,
            Fault::OutOfMemory
            | Fault::Settings(_, SettingsFault::OutOfMemory)
            | Fault::Brokers(BootstrapFault::OutOfMemory)
            | Fault::CannotRead(_)
            | Fault::CannotWrite(_)
            | Fault::Publish(_) => FAULT,
        }
    }
}

impl From<AllocError> for Fault<'_> {
    fn from(_refused: AllocError) -> Self {
        Fault::OutOfMemory
    }
}

/// The line of a fault in a file of settings.
fn put_settings_fault<E: Write>(
    err: &mut E,
    file: &str,
    fault: SettingsFault<'_>,
) -> io::Result<()> {
    match fault {
        SettingsFault::NoSetting(line) => {
            writeln!(err, "kprod: {file}, line {line}: a line is NAME=VALUE")
        }
        SettingsFault::Unknown(line, name) => {
            writeln!(
                err,
                "kprod: {file}, line {line}: send has no setting {name}"
            )
        }
        SettingsFault::Fixed(line, name) => {
            writeln!(
                err,
                "kprod: {file}, line {line}: {name} can't have this value here"
            )
        }
        SettingsFault::OutOfMemory => err.write_all(OUT_OF_MEMORY),
    }
}

/// The fault's line. Nothing is allocated.
pub(crate) fn put_fault<E: Write>(err: &mut E, fault: Fault<'_>) -> io::Result<()> {
    match fault {
        Fault::NoSettings(file) => writeln!(err, "kprod: {file} is no text"),
        Fault::Settings(file, fault) => put_settings_fault(err, file, fault),
        Fault::OutOfMemory => err.write_all(OUT_OF_MEMORY),
        Fault::Topic => err.write_all(
            b"kprod: a topic's name has 1 to 249 letters, digits, dots, underscores and hyphens, and is not . or ..\n",
        ),
        Fault::Client => err.write_all(b"kprod: client.id has more than 249 bytes\n"),
        Fault::Config(fault) => writeln!(err, "kprod: {fault}"),
        Fault::Brokers(fault) => writeln!(err, "kprod: --broker: {fault}"),
        Fault::CannotRead(file) => put_cannot_read(err, file),
        Fault::CannotWrite(file) => writeln!(err, "kprod: cannot write {file}"),
        Fault::IsRead(file) => writeln!(err, "kprod: {file} is read, and can't be written too"),
        Fault::Publish(fault) => writeln!(err, "kprod: {fault}"),
    }
}
