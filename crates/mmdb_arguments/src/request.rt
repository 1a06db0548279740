//! What a command line asks for.
use crate::commands::{MadeOptions, command};
use crate::rejected::NoRequest;
use clap::ArgMatches;
use std::alloc::{AllocError, Global};

/// The arguments of `show`.
#[derive(Drop)]
pub struct ShowArguments<'a> {
    /// Texts that should be files or addresses, in the order given.
    pub asked: Vec<&'a str>,
    /// Texts that should be paths, or names with paths.
    pub fields: Vec<&'a str>,
    pub lines: bool,
}

/// The arguments of `info`.
#[derive(Drop)]
pub struct InfoArguments<'a> {
    pub files: Vec<&'a str>,
    pub json: bool,
    /// Whether the paths of its records are shown too.
    pub fields: bool,
}

/// Which of several addresses in one cell is meant.
#[derive(Clone, Copy, Debug, PartialEq, Eq)]
pub enum Hop {
    First,
    Last,
}

/// The arguments of `enrich`.
#[derive(Drop)]
pub struct EnrichArguments<'a> {
    pub file: &'a str,
    /// What else is in the place of the file.
    pub others: Vec<&'a str>,
    /// A text that should be what separates columns.
    pub delimiter: Option<&'a str>,
    /// A text that should be the number of a column, or with a header its name.
    pub column: &'a str,
    /// Texts that should be paths, or names with paths.
    pub fields: Vec<&'a str>,
    /// Whether the network of the address is added too.
    pub network: bool,
    pub header: bool,
    /// Where lines are JSON, a text that should be the path of the address in an object.
    pub json: Option<&'a str>,
    /// The name of the member that an object gets, if it is given.
    pub into: Option<&'a str>,
    /// Whether objects without a record get the member too.
    pub nulls: bool,
    pub hop: Hop,
    /// Whether the address may be anywhere in a row.
    pub anywhere: bool,
    /// Whether a cell holds an address and nothing else.
    pub exact: bool,
    /// Whether quotes mean nothing.
    pub no_quotes: bool,
    /// Whether what is warned of is a failure.
    pub strict: bool,
    /// Whether nothing is said but what sets the status.
    pub quiet: bool,
    /// Whether files that are replaced meanwhile are opened anew.
    pub reload: bool,
    /// The file that gets what would go to standard output.
    pub output: Option<&'a str>,
}

/// The formats of an export.
#[derive(Clone, Copy)]
pub enum Format {
    JsonLines,
    Csv,
    /// One network a line.
    Cidr,
    /// Sets for nft.
    Nft,
    /// Sets for ipset.
    Ipset,
    /// A chain for iptables-restore.
    Iptables,
    /// A geo block of nginx.
    Nginx,
    /// A map of haproxy.
    Haproxy,
    /// The file of a table of pf.
    Pf,
}

/// Conditions on records, as texts.
#[derive(Drop)]
pub struct ConditionTexts<'a> {
    /// Texts that should be paths with values, of networks that are wanted.
    pub wheres: Vec<&'a str>,
    /// Texts that should be paths with values, of networks that are not wanted.
    pub where_nots: Vec<&'a str>,
    /// Texts that should be paths with parts of texts that are wanted.
    pub contains: Vec<&'a str>,
    /// Texts that should be paths at which there is to be a value.
    pub has: Vec<&'a str>,
    /// Texts that should be paths with numbers that are to be exceeded.
    pub above: Vec<&'a str>,
    /// Texts that should be paths with numbers that are not to be reached.
    pub below: Vec<&'a str>,
}

/// Which addresses a list of networks has, beside the conditions.
#[derive(Drop)]
pub struct ListArguments<'a> {
    pub ipv4: bool,
    pub ipv6: bool,
    /// Files of blocks that are added, `-` for standard input.
    pub also: Vec<&'a str>,
    /// Files of blocks that are taken away, `-` for standard input.
    pub except: Vec<&'a str>,
    /// A text that should be the beginning of a set's name, or another name.
    pub name: Option<&'a str>,
    /// A text that should be the name of a table of nft.
    pub table: Option<&'a str>,
    /// The family of a table of nft.
    pub family: Option<&'a str>,
    /// A text that should be the target of rules of iptables.
    pub jump: Option<&'a str>,
    /// A text that should be the value of each network for nginx or haproxy.
    pub value: Option<&'a str>,
    /// Whether a list may have no networks.
    pub allow_empty: bool,
    /// Whether a list is written even where no network has a value of a condition.
    pub allow_missing: bool,
}

/// The arguments of `export`.
#[derive(Drop)]
pub struct ExportArguments<'a> {
    pub file: &'a str,
    /// A text that should be a network.
    pub range: Option<&'a str>,
    /// Texts that should be more files, or one of them the network.
    pub others: Vec<&'a str>,
    /// Texts that should be paths, or names with paths.
    pub fields: Vec<&'a str>,
    pub format: Format,
    pub conditions: ConditionTexts<'a>,
    pub list: ListArguments<'a>,
    /// The file that gets what would go to standard output.
    pub output: Option<&'a str>,
}

/// The arguments of `diff`.
#[derive(Drop)]
pub struct DiffArguments<'a> {
    pub old: &'a str,
    pub new: &'a str,
    /// A text that should be a network.
    pub range: Option<&'a str>,
    /// Texts that should be paths, or names with paths.
    pub fields: Vec<&'a str>,
    pub is_csv: bool,
    pub ipv4: bool,
    pub ipv6: bool,
    pub exit_code: bool,
    /// The file that gets what would go to standard output.
    pub output: Option<&'a str>,
}

/// The arguments of `diff` where what changes in a list of networks is asked for.
#[derive(Drop)]
pub struct ListDiffArguments<'a> {
    pub old: &'a str,
    /// The new file, with what would be asked of it by `export`.
    pub newer: ExportArguments<'a>,
    pub exit_code: bool,
}

/// The arguments of `verify`.
#[derive(Drop)]
pub struct VerifyArguments<'a> {
    pub files: Vec<&'a str>,
    /// Whether files are only to be whole, whatever their records are.
    pub whole: bool,
    /// The type that each file has to have, with a `*` at an end for any text there.
    pub database_type: Option<&'a str>,
    /// The file after which each has to be built.
    pub newer_than: Option<&'a str>,
    /// A text that should be a number of days.
    pub max_age: Option<&'a str>,
    pub json: bool,
    pub quiet: bool,
}

/// What the rows of a file that is made are.
#[derive(Clone, Copy, Debug, PartialEq, Eq)]
pub enum RowFormat {
    JsonLines,
    Csv,
    /// Cells between tabs.
    Tsv,
}

/// What becomes of networks that lie in reserved ones.
#[derive(Clone, Copy, Debug, PartialEq, Eq)]
pub enum Reserved {
    Keep,
    Skip,
    Error,
}

/// The arguments of `build`.
#[derive(Drop)]
pub struct BuildArguments<'a> {
    pub out: &'a str,
    /// Where the rows are: a file, or `-` for standard input.
    pub from: &'a str,
    pub format: RowFormat,
    pub network_column: Option<&'a str>,
    /// A text that should be two names with a comma between them.
    pub range_columns: Option<&'a str>,
    /// Texts that should be paths with types.
    pub types: Vec<&'a str>,
    pub types_like: Option<&'a str>,
    pub equal_is_error: bool,
    pub database_type: &'a str,
    /// Texts that should be languages with texts.
    pub descriptions: Vec<&'a str>,
    pub languages: Vec<&'a str>,
    /// A text that should be a number of seconds.
    pub build_epoch: Option<&'a str>,
    pub ipv4_alone: bool,
    pub record_size: Option<&'a str>,
    pub reserved: Reserved,
    pub skip_bad: bool,
    pub check: bool,
}

/// The arguments of `install`.
#[derive(Drop)]
pub struct InstallArguments<'a> {
    pub new: &'a str,
    pub dest: &'a str,
    /// A text that should be a number of percent.
    pub max_change: Option<&'a str>,
    /// The type that the new file has to have, with a `*` at an end for any text there.
    pub database_type: Option<&'a str>,
    /// Whether the new file may be older.
    pub allow_older: bool,
    /// Whether what is there may be no database that can be read.
    pub allow_broken: bool,
    pub dry_run: bool,
    pub quiet: bool,
}

/// A command with its arguments.
#[derive(Drop)]
pub enum Request<'a> {
    /// The records of addresses, or their values at some paths.
    Show(ShowArguments<'a>),
    /// What a database says of itself.
    Info(InfoArguments<'a>),
    /// Fields after lines.
    Enrich(EnrichArguments<'a>),
    /// Every network with its record.
    Export(ExportArguments<'a>),
    /// What changed between two files.
    Diff(DiffArguments<'a>),
    /// What changed in a list of networks.
    ListDiff(ListDiffArguments<'a>),
    /// A file in the place of another one.
    Install(InstallArguments<'a>),
    /// A file that is made of rows.
    Build(BuildArguments<'a>),
    /// Whether files are whole.
    Verify(VerifyArguments<'a>),
}

impl<'a> Request<'a> {
    /// The file that gets what would go to standard output, if there is one.
    pub fn output(&self) -> Option<&'a str> {
        match self {
            Request::Enrich(arguments) => arguments.output,
            Request::Export(arguments) => arguments.output,
            Request::Diff(arguments) => arguments.output,
            Request::ListDiff(arguments) => arguments.newer.output,
            _ => None,
        }
    }
}

// The values of an argument.
fn texts_of<'a>(
    alloc: Global,
    matches: &ArgMatches<'a>,
    name: &str,
) -> Result<Vec<&'a str>, AllocError> {
    let mut texts = Vec::new(alloc);
    texts.extend_from_slice(matches.get_strs(name).unwrap_or(&[]))?;
    Ok(texts)
}

fn file_of<'a>(matches: &ArgMatches<'a>) -> &'a str {
    matches.get_str("FILE").unwrap_or("")
}

fn show<'a>(alloc: Global, matches: &ArgMatches<'a>) -> Result<Request<'a>, NoRequest> {
    let mut asked = texts_of(alloc, matches, "FILE")?;
    asked.extend_from_slice(matches.get_strs("ADDR").unwrap_or(&[]))?;
    Ok(Request::Show(ShowArguments {
        asked,
        fields: texts_of(alloc, matches, "field")?,
        lines: matches.get_flag("lines"),
    }))
}

fn info<'a>(alloc: Global, matches: &ArgMatches<'a>) -> Result<Request<'a>, NoRequest> {
    Ok(Request::Info(InfoArguments {
        files: texts_of(alloc, matches, "FILE")?,
        json: matches.get_flag("json"),
        fields: matches.get_flag("fields"),
    }))
}

fn hop_of(matches: &ArgMatches<'_>) -> Hop {
    match matches.get_str("hop") {
        Some("last") => Hop::Last,
        _ => Hop::First,
    }
}

fn enrich<'a>(alloc: Global, matches: &ArgMatches<'a>) -> Result<Request<'a>, NoRequest> {
    let fields = texts_of(alloc, matches, "field")?;
    let mut others = Vec::new(alloc);
    let files = matches.get_strs("FILE").unwrap_or(&[]);
    others.extend_from_slice(files.get(1..).unwrap_or(&[]))?;
    Ok(Request::Enrich(EnrichArguments {
        file: files.first().copied().unwrap_or(""),
        others,
        delimiter: matches.get_str("delimiter"),
        column: matches.get_str("column").unwrap_or("1"),
        fields,
        network: matches.get_flag("network"),
        header: matches.get_flag("header"),
        json: matches.get_str("json"),
        into: matches.get_str("into"),
        nulls: matches.get_flag("nulls"),
        hop: hop_of(matches),
        anywhere: matches.get_flag("anywhere"),
        exact: matches.get_flag("exact"),
        no_quotes: matches.get_flag("no-quotes"),
        strict: matches.get_flag("strict"),
        quiet: matches.get_flag("quiet"),
        reload: matches.get_flag("reload"),
        output: matches.get_str("output"),
    }))
}

fn format_of(matches: &ArgMatches<'_>) -> Format {
    match matches.get_str("format") {
        Some("csv") => Format::Csv,
        Some("cidr") => Format::Cidr,
        Some("nft") => Format::Nft,
        Some("ipset") => Format::Ipset,
        Some("iptables") => Format::Iptables,
        Some("nginx") => Format::Nginx,
        Some("haproxy") => Format::Haproxy,
        Some("pf") => Format::Pf,
        _ => Format::JsonLines,
    }
}

fn condition_texts<'a>(
    alloc: Global,
    matches: &ArgMatches<'a>,
) -> Result<ConditionTexts<'a>, AllocError> {
    let wheres = texts_of(alloc, matches, "where")?;
    let where_nots = texts_of(alloc, matches, "where-not")?;
    let contains = texts_of(alloc, matches, "where-contains")?;
    let has = texts_of(alloc, matches, "where-has")?;
    let above = texts_of(alloc, matches, "where-above")?;
    let below = texts_of(alloc, matches, "where-below")?;
    Ok(ConditionTexts {
        wheres,
        where_nots,
        contains,
        has,
        above,
        below,
    })
}

fn list_arguments<'a>(
    alloc: Global,
    matches: &ArgMatches<'a>,
) -> Result<ListArguments<'a>, AllocError> {
    let also = texts_of(alloc, matches, "also")?;
    let except = texts_of(alloc, matches, "except")?;
    Ok(ListArguments {
        ipv4: matches.get_flag("ipv4"),
        ipv6: matches.get_flag("ipv6"),
        also,
        except,
        name: matches.get_str("name"),
        table: matches.get_str("table"),
        family: matches.get_str("family"),
        jump: matches.get_str("jump"),
        value: matches.get_str("value"),
        allow_empty: matches.get_flag("allow-empty"),
        allow_missing: matches.get_flag("allow-missing"),
    })
}

// What is asked of the networks of a file, inside a network.
fn export_arguments<'a>(
    alloc: Global,
    file: &'a str,
    range: Option<&'a str>,
    matches: &ArgMatches<'a>,
) -> Result<ExportArguments<'a>, AllocError> {
    let fields = texts_of(alloc, matches, "field")?;
    let conditions = condition_texts(alloc, matches)?;
    let list = list_arguments(alloc, matches)?;
    Ok(ExportArguments {
        file,
        range,
        others: Vec::new(alloc),
        fields,
        format: format_of(matches),
        conditions,
        list,
        output: matches.get_str("output"),
    })
}

fn export<'a>(alloc: Global, matches: &ArgMatches<'a>) -> Result<Request<'a>, NoRequest> {
    let mut arguments = export_arguments(alloc, file_of(matches), None, matches)?;
    arguments.others = texts_of(alloc, matches, "RANGE")?;
    Ok(Request::Export(arguments))
}

// Which argument is of lists alone, among those that were given.
fn list_argument(arguments: &ExportArguments<'_>) -> Option<&'static str> {
    let (conditions, list) = (&arguments.conditions, &arguments.list);
    let given = [
        ("--where", !conditions.wheres.is_empty()),
        ("--where-not", !conditions.where_nots.is_empty()),
        ("--where-contains", !conditions.contains.is_empty()),
        ("--where-has", !conditions.has.is_empty()),
        ("--where-above", !conditions.above.is_empty()),
        ("--where-below", !conditions.below.is_empty()),
        ("--also", !list.also.is_empty()),
        ("--except", !list.except.is_empty()),
        ("--name", list.name.is_some()),
        ("--table", list.table.is_some()),
        ("--family", list.family.is_some()),
        ("--allow-empty", list.allow_empty),
        ("--allow-missing", list.allow_missing),
    ];
    for (name, is_given) in given {
        if is_given {
            return Some(name);
        }
    }
    None
}

fn diff<'a>(alloc: Global, matches: &ArgMatches<'a>) -> Result<Request<'a>, NoRequest> {
    let old = matches.get_str("OLD").unwrap_or("");
    let file = matches.get_str("NEW").unwrap_or("");
    let exit_code = matches.get_flag("exit-code");
    let range = matches.get_str("RANGE");
    let newer = export_arguments(alloc, file, range, matches)?;
    if !matches!(newer.format, Format::JsonLines | Format::Csv) {
        return Ok(Request::ListDiff(ListDiffArguments {
            old,
            newer,
            exit_code,
        }));
    }
    if let Some(name) = list_argument(&newer) {
        return Err(NoRequest::bad_argument(alloc, name, "needs --format cidr, nft or ipset"));
    }
    let is_csv = matches!(newer.format, Format::Csv);
    let fields = texts_of(alloc, matches, "field")?;
    Ok(Request::Diff(DiffArguments {
        old,
        new: file,
        range: newer.range,
        fields,
        is_csv,
        ipv4: newer.list.ipv4,
        ipv6: newer.list.ipv6,
        exit_code,
        output: newer.output,
    }))
}

fn row_format_of(matches: &ArgMatches<'_>) -> RowFormat {
    match matches.get_str("format") {
        Some("csv") => RowFormat::Csv,
        Some("tsv") => RowFormat::Tsv,
        _ => RowFormat::JsonLines,
    }
}

fn reserved_of(matches: &ArgMatches<'_>) -> Reserved {
    match matches.get_str("reserved") {
        Some("skip") => Reserved::Skip,
        Some("error") => Reserved::Error,
        _ => Reserved::Keep,
    }
}

fn build<'a>(alloc: Global, matches: &ArgMatches<'a>) -> Result<Request<'a>, NoRequest> {
    let types = texts_of(alloc, matches, "type")?;
    let descriptions = texts_of(alloc, matches, "description")?;
    let languages = texts_of(alloc, matches, "language")?;
    Ok(Request::Build(BuildArguments {
        out: matches.get_str("OUT").unwrap_or(""),
        from: matches.get_str("from").unwrap_or("-"),
        format: row_format_of(matches),
        network_column: matches.get_str("network-column"),
        range_columns: matches.get_str("range-columns"),
        types,
        types_like: matches.get_str("types-like"),
        equal_is_error: matches.get_str("equal") == Some("error"),
        database_type: matches.get_str("database-type").unwrap_or(""),
        descriptions,
        languages,
        build_epoch: matches.get_str("build-epoch"),
        ipv4_alone: matches.get_str("ip-version") == Some("4"),
        record_size: matches.get_str("record-size"),
        reserved: reserved_of(matches),
        skip_bad: matches.get_flag("skip-bad"),
        check: matches.get_flag("check"),
    }))
}

fn install<'a>(matches: &ArgMatches<'a>) -> Request<'a> {
    Request::Install(InstallArguments {
        new: matches.get_str("NEW").unwrap_or(""),
        dest: matches.get_str("DEST").unwrap_or(""),
        max_change: matches.get_str("max-change"),
        database_type: matches.get_str("database-type"),
        allow_older: matches.get_flag("allow-older"),
        allow_broken: matches.get_flag("allow-broken"),
        dry_run: matches.get_flag("dry-run"),
        quiet: matches.get_flag("quiet"),
    })
}

fn verify<'a>(alloc: Global, matches: &ArgMatches<'a>) -> Result<Request<'a>, NoRequest> {
    let files = texts_of(alloc, matches, "FILE")?;
    Ok(Request::Verify(VerifyArguments {
        files,
        whole: matches.get_flag("whole"),
        database_type: matches.get_str("database-type"),
        newer_than: matches.get_str("newer-than"),
        max_age: matches.get_str("max-age"),
        json: matches.get_flag("json"),
        quiet: matches.get_flag("quiet"),
    }))
}

// The request of a command's own arguments.
fn of_command<'a>(
    alloc: Global,
    name: &str,
    matches: &ArgMatches<'a>,
) -> Result<Request<'a>, NoRequest> {
    if name == "show" {
        show(alloc, matches)
    } else if name == "info" {
        info(alloc, matches)
    } else if name == "enrich" {
        enrich(alloc, matches)
    } else if name == "export" {
        export(alloc, matches)
    } else if name == "diff" {
        diff(alloc, matches)
    } else if name == "install" {
        Ok(install(matches))
    } else if name == "build" {
        build(alloc, matches)
    } else {
        verify(alloc, matches)
    }
}

// What clap finds in a command line, with these options.
fn matches_of<'a>(
    alloc: Global,
    arguments: &'a [String],
    options: MadeOptions,
) -> Result<ArgMatches<'a>, NoRequest> {
    match command(alloc, arguments, options)?.try_get_matches_from(arguments) {
        Ok(matches) => Ok(matches),
        Err(error) => Err(NoRequest::from_clap(alloc, &error)),
    }
}

/// What a command line asks for, the program's name first.
pub fn request_of<'a>(alloc: Global, arguments: &'a [String]) -> Result<Request<'a>, NoRequest> {
    let matches = match matches_of(alloc, arguments, MadeOptions::Given) {
        Ok(matches) => matches,
        // help names all options, and an error those that are alike
        Err(_) => matches_of(alloc, arguments, MadeOptions::All)?,
    };
    match matches.subcommand() {
        Some((name, matches)) => of_command(alloc, name, matches),
        None => Err(NoRequest::bad_argument(alloc, "", "no command")),
    }
}
