//! What `export` is asked for.
ghost use Rattle.std.specs.Prelude.{◌≡◌};
ghost use Rattle.mmdb_cmd_export.specs.Listed.{may_lack_of};

use crate::conditions::{NamedValue, conditions_of, named_values};
use crate::inputs::ValueFile;
use crate::names::{fault_of_name, fault_of_table};
use mmdb_arguments::{ExportArguments, Format, ListArguments, NoRequest};
use mmdb_blocks::{Kinds, Syntax, is_list_value, is_table_name};
use mmdb_layout::{Condition, Layout, NETWORK, layout_of};
use mmdb_reader::IpNetwork;
use std::alloc::Global;

/// What an export writes.
#[derive(Drop)]
pub(crate) enum Shape<'a> {
    /// A row for each network.
    Rows(Layout<'a>),
    /// The fewest blocks that have the addresses of the networks.
    List(Syntax<'a>),
}

/// What `export` is asked for.
#[derive(Drop)]
pub(crate) struct ExportTask<'a> {
    pub(crate) range: Option<IpNetwork>,
    pub(crate) conditions: Vec<Condition<'a>>,
    /// The values that the conditions name one by one.
    pub(crate) named: Vec<NamedValue<'a>>,
    /// The files of values that the conditions name.
    pub(crate) files: &'a [ValueFile<'a>],
    pub(crate) kinds: Kinds,
    pub(crate) shape: Shape<'a>,
    /// Whether blocks are added to the list.
    pub(crate) has_more: bool,
    /// Whether a list may have no networks.
    pub(crate) allow_empty: bool,
    /// Whether a list is written even where no network has a value of a condition.
    pub(crate) allow_missing: bool,
}

impl ExportTask<'_> {
    /// Whether a list may lack networks: one of plain blocks empties no set.
    pub(crate) fn may_lack(&self) -> bool
        ensures { result ≡ may_lack_of self.now.shape }
    {
        matches!(self.shape, Shape::List(Syntax::Cidr))
    }

    /// Whether only a part of the database is asked for.
    pub(crate) fn is_of_part(&self) -> bool {
        self.range.is_some() || !matches!(self.kinds, Kinds::Both)
    }
}

// What an option says, where it may say that in a format that takes it, or else what is said without it.
fn text_of<'a>(
    alloc: Global,
    text: Option<&'a str>,
    default: &'a str,
    is_taken: bool,
    is_right: bool,
    wrong: [&str; 3],
) -> Result<&'a str, NoRequest> {
    let [option, needs, not] = wrong;
    match text {
        None => Ok(default),
        Some(_) if !is_taken => Err(NoRequest::bad_argument(alloc, option, needs)),
        Some(text) if !is_right => Err(NoRequest::bad_argument(alloc, text, not)),
        Some(text) => Ok(text),
    }
}

// How sets, a chain or a variable are named, in a format that has some.
fn name_of<'a>(alloc: Global, format: Format, name: Option<&'a str>) -> Result<&'a str, NoRequest> {
    let fault = fault_of_name(format, name.unwrap_or(""));
    let is_taken = matches!(
        format,
        Format::Nft | Format::Ipset | Format::Iptables | Format::Nginx
    );
    let wrong = [
        "--name",
        "needs --format nft, ipset, iptables or nginx",
        fault.unwrap_or(""),
    ];
    text_of(alloc, name, "mmdb", is_taken, fault.is_none(), wrong)
}

// The table of nft that has the sets.
fn table_of<'a>(
    alloc: Global,
    format: Format,
    table: Option<&'a str>,
) -> Result<&'a str, NoRequest> {
    let fault = fault_of_table(table.unwrap_or(""));
    let wrong = ["--table", "needs --format nft", fault.unwrap_or("")];
    text_of(
        alloc,
        table,
        "mmdb",
        matches!(format, Format::Nft),
        fault.is_none(),
        wrong,
    )
}

// The family of that table.
fn family_of<'a>(
    alloc: Global,
    format: Format,
    family: Option<&'a str>,
) -> Result<&'a str, NoRequest> {
    let wrong = ["--family", "needs --format nft", "not a family"];
    text_of(
        alloc,
        family,
        "inet",
        matches!(format, Format::Nft),
        true,
        wrong,
    )
}

// The target of rules.
fn target_of<'a>(
    alloc: Global,
    format: Format,
    jump: Option<&'a str>,
) -> Result<&'a str, NoRequest> {
    let is_right = is_table_name(jump.unwrap_or(""));
    let wrong = ["--jump", "needs --format iptables", "not a target"];
    let is_taken = matches!(format, Format::Iptables);
    text_of(alloc, jump, "DROP", is_taken, is_right, wrong)
}

// The value of each network.
fn value_of<'a>(
    alloc: Global,
    format: Format,
    value: Option<&'a str>,
) -> Result<&'a str, NoRequest> {
    let is_right = is_list_value(value.unwrap_or(""));
    let not = "not 1 to 64 letters, digits, _, - and .";
    let wrong = ["--value", "needs --format nginx or haproxy", not];
    let is_taken = matches!(format, Format::Nginx | Format::Haproxy);
    text_of(alloc, value, "1", is_taken, is_right, wrong)
}

// The first argument of lists alone that is given, where rows are written.
fn argument_of_lists(list: &ListArguments<'_>) -> Option<&'static str> {
    if !list.also.is_empty() {
        Some("--also")
    } else if !list.except.is_empty() {
        Some("--except")
    } else {
        None
    }
}

// Rows in a layout, which nothing is added to and taken from.
fn rows_of<'a>(
    alloc: Global,
    is_csv: bool,
    arguments: &'a ExportArguments<'a>,
) -> Result<Shape<'a>, NoRequest> {
    if let Some(argument) = argument_of_lists(&arguments.list) {
        return Err(NoRequest::bad_argument(alloc, argument, "needs a list of networks"));
    }
    let fields = arguments.fields.as_slice();
    Ok(Shape::Rows(layout_of(alloc, is_csv, fields, &[NETWORK])?))
}

// A list in a syntax, of which networks have no fields.
fn list_of<'a>(alloc: Global, syntax: Syntax<'a>, fields: &[&str]) -> Result<Shape<'a>, NoRequest> {
    if !fields.is_empty() {
        return Err(NoRequest::bad_argument(alloc, "--field", "not with a list of networks"));
    }
    Ok(Shape::List(syntax))
}

fn shape_of<'a>(alloc: Global, arguments: &'a ExportArguments<'a>) -> Result<Shape<'a>, NoRequest> {
    let (format, list) = (arguments.format, &arguments.list);
    let name = name_of(alloc, format, list.name)?;
    let table = table_of(alloc, format, list.table)?;
    let family = family_of(alloc, format, list.family)?;
    let target = target_of(alloc, format, list.jump)?;
    let value = value_of(alloc, format, list.value)?;
    let syntax = match format {
        Format::JsonLines => return rows_of(alloc, false, arguments),
        Format::Csv => return rows_of(alloc, true, arguments),
        Format::Cidr => Syntax::Cidr,
        Format::Nft => Syntax::Nft {
            family,
            table,
            name,
        },
        Format::Ipset => Syntax::Ipset { name },
        Format::Iptables => Syntax::Iptables {
            chain: name,
            target,
        },
        Format::Nginx => Syntax::Nginx {
            variable: name,
            value,
        },
        Format::Haproxy => Syntax::Haproxy { value },
        Format::Pf => Syntax::Pf,
    };
    list_of(alloc, syntax, arguments.fields.as_slice())
}

/// What the arguments of `export` ask for in a range, with the values of files. An `Err` where one is not what is wanted in its place.
pub(crate) fn export_task<'a>(
    alloc: Global,
    arguments: &'a ExportArguments<'a>,
    range: Option<IpNetwork>,
    files: &'a [ValueFile<'a>],
) -> Result<ExportTask<'a>, NoRequest> {
    Ok(ExportTask {
        range,
        conditions: conditions_of(alloc, &arguments.conditions, files)?,
        named: named_values(alloc, &arguments.conditions)?,
        files,
        kinds: Kinds::asked(arguments.list.ipv4, arguments.list.ipv6),
        shape: shape_of(alloc, arguments)?,
        has_more: !arguments.list.also.is_empty(),
        allow_empty: arguments.list.allow_empty,
        allow_missing: arguments.list.allow_missing,
    })
}
