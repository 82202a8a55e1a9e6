//! A command as clap gets it.
ghost use Rattle.std.specs.Prelude.{◌≡◌, IfOk, [], map, false};
ghost use Rattle.clap.specs.Words.{app_of, rule_of};
ghost use Rattle.dissent_words.specs.Forms.{option_rule, address_rule, app_with};

use clap::{Arg, ArgAction};
use std::alloc::{AllocError, Global};

/// What clap calls the addresses.
pub(crate) const ADDRESS: &str = "address";

// Clap's command with these options, and with addresses behind them or none.
pub(crate) fn clap_command<'a>(
    alloc: Global,
    options: &[&'a str],
    takes_addresses: bool,
) -> Result<clap::Command<'a>, AllocError>
    ensures { IfOk result (λ command. app_of command ≡ app_with (map (λ o. o.now) options.now) takes_addresses) }
{
    let mut command = bare_command(alloc);
    for option in options {
        command = command.arg(option_arg(alloc, *option))?;
    }
    if takes_addresses {
        command = command.arg(address_arg(alloc))?;
    }
    Ok(command)
}

// A command that has no argument, and no flag of clap's own.
fn bare_command<'a>(alloc: Global) -> clap::Command<'a>
    ensures { app_of result ≡ app_with [] false }
{
    clap::Command::new(alloc, "dissent")
        .no_binary_name(true)
        .disable_help_flag(true)
        .disable_version_flag(true)
}

// A required option of one value.
fn option_arg<'a>(alloc: Global, name: &'a str) -> Arg<'a>
    ensures rule { rule_of result ≡ option_rule name.now }
    ensures local { result.global ≡ false }
{
    let option = Arg::new(alloc, name).required(true);
    option.long(name).action(ArgAction::Set)
}

// One or more addresses.
fn address_arg<'a>(alloc: Global) -> Arg<'a>
    ensures rule { rule_of result ≡ address_rule }
    ensures local { result.global ≡ false }
{
    let addresses = Arg::new(alloc, ADDRESS).required(true);
    addresses.action(ArgAction::Append)
}
