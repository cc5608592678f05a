ghost use Rattle.std.specs.Prelude.{◌≡◌, false, IfOk};
ghost use Rattle.clap.specs.Words.{app_of, rule_of};
ghost use Rattle.command_words.specs.Options.{steps_rule, journal_rule, pipe_app};

use clap::{Arg, Command, value_parser};
use std::alloc::{AllocError, Global};

fn steps_option<'a>(alloc: Global) -> Arg<'a>
    ensures rule { rule_of result ≡ steps_rule }
    ensures local { result.global ≡ false }
{
    Arg::new(alloc, "steps")
        .long("steps")
        .value_parser(value_parser!(u64).range(1..=100_000_000))
        .default_value("100000000")
}

fn journal_option<'a>(alloc: Global) -> Arg<'a>
    ensures rule { rule_of result ≡ journal_rule }
    ensures local { result.global ≡ false }
{
    Arg::new(alloc, "journal")
        .long("journal")
        .value_parser(value_parser!(u64).range(2..=4_000_000))
        .default_value("4000000")
}

/// The command of the form `pipe`: it reads the numbers of the options, with their ranges and defaults.
pub fn pipe_command<'a>(alloc: Global) -> Result<Command<'a>, AllocError>
    ensures { IfOk result (λ command. app_of command ≡ pipe_app) }
{
    Command::new(alloc, "pipe")
        .disable_help_flag(true)
        .arg(steps_option(alloc))?
        .arg(journal_option(alloc))
}
