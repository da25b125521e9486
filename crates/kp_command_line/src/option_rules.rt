//! Options that a command takes, as clap sees them.

ghost use Rattle.std.specs.Prelude.{◌≡◌, false, IfOk, []};
ghost use Rattle.clap.specs.Words.{rule_of};
ghost use Rattle.kp_command_line.specs.OptionRules.{Adds, flag_rule, number_rule, repeated_rule, required_rule, setting_rule, text_rule};

use clap::builder::ValueParser;
use clap::{Arg, ArgAction, Command};
use std::alloc::{AllocError, Global};

/// An option that takes a number.
fn number<'a>(alloc: Global, name: &'a str, least: u64, most: u64, help: &'a str) -> Arg<'a>
    ensures rule { rule_of result ≡ number_rule name.entry.now least most }
    ensures local { result.global ≡ false }
{
    Arg::new(alloc, name)
        .long(name)
        .value_name("N")
        .value_parser(ValueParser::unsigned(least, most))
        .help(help)
}

/// An option that takes a text.
pub(crate) fn text<'a>(alloc: Global, name: &'a str, value: &'a str, help: &'a str) -> Arg<'a>
    ensures rule { rule_of result ≡ text_rule name.entry.now }
    ensures local { result.global ≡ false }
    ensures free { result.conflicts.items ≡ [] }
{
    Arg::new(alloc, name)
        .long(name)
        .value_name(value)
        .help(help)
}

/// Adds an option that takes a number.
pub fn with_number<'a>(
    alloc: Global,
    command: Command<'a>,
    name: &'a str,
    least: u64,
    most: u64,
    help: &'a str,
) -> Result<Command<'a>, AllocError>
    ensures { IfOk result (Adds (number_rule name.entry.now least most) command.entry) }
{
    command.arg(number(alloc, name, least, most, help))
}

/// Adds an option that takes any number, under a name of Kafka's and under a shorter one.
pub fn with_setting<'a>(
    alloc: Global,
    command: Command<'a>,
    name: &'a str,
    short: &'a str,
    help: &'a str,
) -> Result<Command<'a>, AllocError>
    ensures { IfOk result (Adds (setting_rule name.entry.now short.entry.now) command.entry) }
{
    let setting = number(alloc, name, 0, u64::MAX, help).visible_alias(short)?;
    command.arg(setting)
}

/// Adds an option that takes a text.
pub fn with_text<'a>(
    alloc: Global,
    command: Command<'a>,
    name: &'a str,
    value: &'a str,
    help: &'a str,
) -> Result<Command<'a>, AllocError>
    ensures { IfOk result (Adds (text_rule name.entry.now) command.entry) }
{
    command.arg(text(alloc, name, value, help))
}

/// Adds an option that takes a text, and that has to be there.
pub fn with_required_text<'a>(
    alloc: Global,
    command: Command<'a>,
    name: &'a str,
    value: &'a str,
    help: &'a str,
) -> Result<Command<'a>, AllocError>
    ensures { IfOk result (Adds (required_rule name.entry.now) command.entry) }
{
    command.arg(text(alloc, name, value, help).required(true))
}

/// Adds an option that takes a text each time that it is there.
pub fn with_repeated_text<'a>(
    alloc: Global,
    command: Command<'a>,
    name: &'a str,
    value: &'a str,
    help: &'a str,
) -> Result<Command<'a>, AllocError>
    ensures { IfOk result (Adds (repeated_rule name.entry.now) command.entry) }
{
    command.arg(text(alloc, name, value, help).action(ArgAction::Append))
}

/// Adds an option that takes nothing.
pub fn with_flag<'a>(
    alloc: Global,
    command: Command<'a>,
    name: &'a str,
    help: &'a str,
) -> Result<Command<'a>, AllocError>
    ensures { IfOk result (Adds (flag_rule name.entry.now) command.entry) }
{
    let flag = Arg::new(alloc, name)
        .long(name)
        .action(ArgAction::SetTrue)
        .help(help);
    command.arg(flag)
}
