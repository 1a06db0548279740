//! The program's arguments.
use mmdb_reader::{IpNetwork, WithinOptions};
use std::net::IpAddr;

/// The usage line, with its line feed.
pub const USAGE: &str =
    "usage: mmdb_tool lookup FILE ADDR | list FILE RANGE [--aliases] [--empty] [--skip-empty] | verify FILE | report FILE RANGE [--aliases] [--empty] [--skip-empty]\n";

const ALIASES: &str = "--aliases";

const EMPTY: &str = "--empty";

const SKIP_EMPTY: &str = "--skip-empty";

/// What the arguments ask for.
#[derive(Drop)]
pub(crate) enum Command<'a> {
    /// The line of an address.
    Lookup {
        file: &'a str,
        address: IpAddr,
    },
    /// The lines of a range.
    List {
        file: &'a str,
        range: IpNetwork,
        options: WithinOptions,
    },
    /// Whether the file is whole.
    Verify {
        file: &'a str,
    },
    /// The counts of a range.
    Report {
        file: &'a str,
        range: IpNetwork,
        options: WithinOptions,
    },
}

impl<'a> Command<'a> {
    /// The path of the file that it reads.
    pub(crate) fn file(&self) -> &'a str {
        match *self {
            Command::Lookup { file, .. }
            | Command::List { file, .. }
            | Command::Verify { file }
            | Command::Report { file, .. } => file,
        }
    }
}

// A switch that is on from now on, unless it was on already.
fn switched_on(on: bool) -> Option<bool> {
    if on { None } else { Some(true) }
}

fn is_option(word: &str) -> bool {
    word == ALIASES || word == EMPTY || word == SKIP_EMPTY
}

// The options that the arguments switch on, each at most once.
fn options_of(words: &[String]) -> Option<WithinOptions> {
    let mut aliases = false;
    let mut empty = false;
    let mut skip_empty = false;
    for word in words {
        let word = word.as_str();
        if word == ALIASES {
            aliases = switched_on(aliases)?;
        } else if word == EMPTY {
            empty = switched_on(empty)?;
        } else if word == SKIP_EMPTY {
            skip_empty = switched_on(skip_empty)?;
        } else {
            return None;
        }
    }
    let mut options = WithinOptions::default();
    if aliases {
        options = options.include_aliased_networks();
    }
    if empty {
        options = options.include_networks_without_data();
    }
    if skip_empty {
        options = options.skip_empty_values();
    }
    Some(options)
}

// The range and the options of a command. An option comes after the range: in the place of FILE it is a
// word too many before it.
fn range_of(file: &str, range: &str, words: &[String]) -> Option<(IpNetwork, WithinOptions)> {
    if is_option(file) {
        return None;
    }
    Some((range.parse().ok()?, options_of(words)?))
}

fn list_of<'a>(file: &'a str, range: &str, words: &[String]) -> Option<Command<'a>> {
    let (range, options) = range_of(file, range, words)?;
    Some(Command::List {
        file,
        range,
        options,
    })
}

fn report_of<'a>(file: &'a str, range: &str, words: &[String]) -> Option<Command<'a>> {
    let (range, options) = range_of(file, range, words)?;
    Some(Command::Report {
        file,
        range,
        options,
    })
}

/// What the arguments ask for, or none where they are no command, or an address or a range is not read.
pub(crate) fn command_of(words: &[String]) -> Option<Command<'_>> {
    match words {
        [command, file, address] if command.as_str() == "lookup" => Some(Command::Lookup {
            file: file.as_str(),
            address: address.as_str().parse().ok()?,
        }),
        [command, file, range, options @ ..] if command.as_str() == "list" => {
            list_of(file.as_str(), range.as_str(), options)
        }
        [command, file] if command.as_str() == "verify" => Some(Command::Verify {
            file: file.as_str(),
        }),
        [command, file, range, options @ ..] if command.as_str() == "report" => {
            report_of(file.as_str(), range.as_str(), options)
        }
        _ => None,
    }
}
