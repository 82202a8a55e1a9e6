//! What words give a command, as clap reads them.
ghost use Rattle.std.specs.Prelude.{◌≡◌, IfOk, [], map, unwrap_or, codes};
ghost use Rattle.clap.specs.Words.{found_of, rows_of, all_of};
ghost use Rattle.dissent_words.specs.Request.{Reads, texts};
ghost use Rattle.dissent_words.specs.Forms.{given_by, values_in};
ghost use Rattle.dissent_words.specs.Views.{given_of};

use crate::clap_form::{ADDRESS, clap_command};
use crate::refusal::WordsRefusal;
use clap::ArgMatches;
use std::alloc::{AllocError, Global};

/// What words give a command: the value of each option, in the order of the options, and the addresses.
#[derive(Debug, Drop)]
pub(crate) struct GivenWords<'a> {
    pub(crate) values: Vec<&'a str>,
    pub(crate) addresses: Vec<&'a str>,
}

/// What the words behind a command's name give it, by its options.
pub(crate) fn given_words<'a>(
    alloc: Global,
    options: &[&'a str],
    takes_addresses: bool,
    words: &'a [String],
) -> Result<GivenWords<'a>, WordsRefusal>
    ensures { Reads given_of result (given_by (map (λ o. o.now) options.now) takes_addresses (texts words.now)) }
{
    let command = clap_command(alloc, options, takes_addresses)?;
    let matches = command.try_get_matches_from(words)?;
    let values = option_values(alloc, &matches, options)?;
    let addresses = address_values(alloc, &matches)?;
    Ok(GivenWords { values, addresses })
}

// The value of each option.
fn option_values<'a>(
    alloc: Global,
    matches: &ArgMatches<'a>,
    options: &[&str],
) -> Result<Vec<&'a str>, WordsRefusal>
    ensures { Reads (λ values. map (λ v. v.now) values.items) result
        (values_in (rows_of (found_of matches.now)) (map (λ o. o.now) options.now)) }
{
    let mut values = Vec::new(alloc);
    for option in options {
        match matches.get_str(option) {
            Some(value) => values.push(value)?,
            None => return Err(WordsRefusal::Usage),
        }
    }
    Ok(values)
}

// The addresses, if there are any.
fn address_values<'a>(alloc: Global, matches: &ArgMatches<'a>) -> Result<Vec<&'a str>, AllocError>
    ensures { IfOk result (λ values. map (λ v. v.now) values.items
        ≡ unwrap_or (all_of (codes "address") (rows_of (found_of matches.now))) []) }
{
    match matches.get_strs(ADDRESS) {
        Some(addresses) => Vec::from_slice(alloc, addresses),
        None => Ok(Vec::new(alloc)),
    }
}
