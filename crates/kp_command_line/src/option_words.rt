//! What an option says, by clap.

ghost use Rattle.kp_command_line.specs.OptionWords.{IsFlag, IsSaid, IsSaidOr, rows_in};
ghost use Rattle.clap.specs.Words.{one_of};

use clap::ArgMatches;

/// The number that an option says, where it says one.
pub fn number_of(matches: &ArgMatches<'_>, name: &str) -> Option<u64>
    ensures { IsSaid 64 (one_of name.now (rows_in matches.now)) result }
{
    matches.get_one::<u64>(name)
}

/// The same of 32 bits.
pub fn small_number_of(matches: &ArgMatches<'_>, name: &str) -> Option<u32>
    ensures { IsSaid 32 (one_of name.now (rows_in matches.now)) result }
{
    matches.get_one::<u32>(name)
}

/// The number that an option says, or the usual one.
pub fn number_or(matches: &ArgMatches<'_>, name: &str, usual: u64) -> u64
    ensures { IsSaidOr 64 (one_of name.now (rows_in matches.now)) usual result }
{
    number_of(matches, name).unwrap_or(usual)
}

/// Whether a flag stands there.
pub fn flag_of(matches: &ArgMatches<'_>, name: &str) -> bool
    ensures { IsFlag (one_of name.now (rows_in matches.now)) result }
{
    matches.get_flag(name)
}
