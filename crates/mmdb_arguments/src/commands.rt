//! The commands and arguments that the program knows.
use clap::{Arg, ArgAction, Command};
use std::alloc::{AllocError, Global};

const SHOW_EXAMPLE: &str = "Examples:
  mmdb show GeoLite2-City.mmdb 1.1.1.1 2001:db8::1 --field country.iso_code
  mmdb show GeoLite2-City.mmdb GeoLite2-ASN.mmdb 1.1.1.1

With --field each value stands alone, as JSON, or where one has a name, as in
cc=country.iso_code, in an object with its address. A path has dots between its
steps; an integer is an index, negative from the end; a key in double quotes
may hold dots, digits or =. Of several files each address gets an object with
what each of them has, by its database type; with --field the value is that of
the first file that has one. A path that meets a value of another type leads
nowhere. ::ffff:1.2.3.4 is asked as it is written, and as 1.2.3.4 where it has no
record. The status is 0 if all were found, 6 if one was not, 1 for an error, 2 for
a usage error.";

const INFO_EXAMPLE: &str = "Examples:
  mmdb info GeoLite2-City.mmdb --json
  mmdb info GeoLite2-City.mmdb --fields

With --fields come the paths to the values of its records, as --field takes them,
sorted: before each how many distinct records have a value there, and its type. All
items of an array are counted at the index 0, and the empty path is that of whole
records. Paths of more than 1,024 bytes, those that can't be written, and any after
the first 65,536 are left out, which is said. Of several files each text or object
begins with its file; the status is 1 where one can't be read.";

const VERIFY_EXAMPLE: &str = "Examples:
  mmdb verify GeoLite2-City.mmdb GeoLite2-Country.mmdb
  mmdb verify new/GeoLite2-City.mmdb --database-type '*City' --max-age 30

The status is 0 where all files are whole and all their records can be read, else
1. In a whole file every lookup succeeds and every record is a finite tree of
valid text, but one may still not be read: with a key that is no text, or that a
pointer to a pointer leads to, or with more than 65,536 values or 2 MiB of texts.
How many can't be read, the first network and why is said. A value nested more
than 128 levels is more than verify takes. A file that was built more than a day
ahead fails --max-age. With --whole files are only to be whole. With --json each
file is an object with its path, ok, type, epoch, nodes, unreadable_records and
error: null where it is not known, or none.";

const ENRICH_EXAMPLE: &str = "Examples:
  tail -F nginx/access.log | mmdb enrich GeoLite2-City.mmdb --field country.iso_code
  mmdb enrich GeoLite2-City.mmdb --field country.iso_code < apache2/access.log
  journalctl -fu ssh -o cat | grep --line-buffered -E '^(Failed password|Invalid user) ' |
      mmdb enrich GeoLite2-City.mmdb --anywhere --hop last --field country.iso_code
  mmdb enrich GeoLite2-City.mmdb --json client.ip --field country.iso_code < log.jsonl
  mmdb enrich GeoLite2-City.mmdb --delimiter , --header --column ip --field city < log.csv
  mmdb enrich GeoLite2-City.mmdb GeoLite2-ASN.mmdb --network --field country.iso_code \\
      --field autonomous_system_organization < access.log

Columns stand between tabs, and each line comes out before the next is waited
for. The address is the first word of its column, alone, in brackets or quotes,
with a port or a zone: 1.2.3.4:443, [2001:db8::1]:443, fe80::1%eth0. A blank, a
comma or a semicolon ends it. A line without an address, or whose address has no
record, gets empty columns, an empty line none. How many lines had a record, none,
no address, or an error is said on standard error at the end. A text stands as it
is, unless it has control characters; any other value is JSON. With --delimiter ,
the input is CSV: cells may be in quotes, and added cells are where they need them,
with control characters as JSON writes them. With --no-quotes the delimiter in an
added cell is so too. The address is looked for in the first 65,536 bytes of a line.
With --header a line of at most so many with fewer cells than the first gets the
delimiters that it lacks; lines with more cells, and longer ones, are counted.

With --anywhere --hop last the address is the last one in the line. Where a client
chooses what ends a line, as in others of sshd than those above, it may name any.

Of several files a field has the value of the first that has one at its path, so
that a file of one's own before others overlays them. With --network the first
column is the network of the address, the smallest that it is in in one of them.

A field has the name that NAME=PATH gives it, or its path's text. With --json a
line that is an object gets an object of the fields as its last member, named by
--into; without a name a field has its path's last step for one. Where no field is
asked for the member is the whole record, or of several files an object of each
one's, by the names that show has; without a record nothing is added, or null with
--nulls. An object has at most 1 MiB. All other lines stay as they are.

With --strict the status is 1 where one line got no answer: without an address, no
object, too long, with the member already, with an error; and where something was
warned of. An address without a record is an answer.";

const EXPORT_EXAMPLE: &str = "Examples:
  mmdb export GeoLite2-Country.mmdb 81.2.69.0/24 --field country.iso_code
  mmdb export GeoLite2-Country.mmdb --where country.iso_code=DE --format cidr
  mmdb export GeoLite2-Country.mmdb GeoLite2-ASN.mmdb --where country.iso_code=CN \\
      --where-not autonomous_system_number=4134 --format nft

The networks come ascending, one a line: an object with the network and its
record, or with the network and the value at each path; or, as csv, rows of
cells below a header row. Each value has the name that NAME=PATH gives it, or
its path's text. In a cell a text stands as it is, and any other value
as JSON. Where a path leads nowhere a cell is empty, and a value null. A network
whose record or field can't be read has no line: ten are named on standard error,
all are counted at the end, and the status is 1. So is a path that no record has
named, with the one that may be meant, and the status stays.

Of several files each network is one in which all of them have one answer, as large
as it can be: with each file's record by its database type, null where it has none,
or with the values of the first that has one at the path. So are conditions.

With --where only networks whose record has this value at the path are written:
a text as it stands, a number as JSON may write it (7, 7.0, 70e-1), any other
scalar as its JSON. PATH=@FILE has a value a line, without the blanks around it, or
in double quotes as JSON writes it; a # at the start of a line or after a blank
begins a comment. @@ stands for a @ that a value begins with. --where-contains
wants a text that has this text in it, and --where-has any value. Several values of one option
at one path are alternatives, options and paths must all fit, and --where-not
leaves out. --where-above and --where-below want a number that is greater or less
than one as JSON writes it (100, -3.5, 1e3), and than each where there are several.

All other formats write no records but the fewest blocks that have the addresses
of the networks, and those in the files of --also, but none in those of --except:
a network, an address or FIRST-LAST a line, and comments behind # or ;. They are
one a line as cidr and pf, two sets NAME_ipv4 and NAME_ipv6 as a file for nft -f
or for ipset restore, a chain NAME for iptables-restore --noflush and
ip6tables-restore, a geo block of $NAME for nginx, or a map of haproxy. A list has
no address outside RANGE but those of --also. A list that lacks a network which
can't be read is loaded by none of these programs; nor is one that was cut before
its last lines, but by haproxy and pf. Of cidr the status speaks alone.

Where a list would have no network, or no network has a value of a condition,
nothing is written, so that a wrong value empties no set, and the status is 1. A
list of cidr empties no set: an empty one is written, a value that no network has
is said, and the status is 0. A row names of a network that is wider than RANGE
just RANGE.

RANGE within ::ffff:0:0/96 is one of IPv4, which is said, unless a file has
networks of its own there. So is a network in the files of --also and --except;
the latter also takes away what a file has under ::ffff.";

const DIFF_EXAMPLE: &str = "Examples:
  mmdb diff old/GeoLite2-Country.mmdb GeoLite2-Country.mmdb --field country.iso_code
  mmdb diff old/GeoLite2-Country.mmdb GeoLite2-Country.mmdb \\
      --where country.iso_code=DE --format nft | nft -f -

Each line is a block of addresses, as large as it can be, in which both files
have one answer each and the answers differ: with the old value and the new one,
null where there is none. They come ascending. Files of which one has only IPv4
are compared on IPv4. How many networks and IPv4 addresses were added, removed
and changed is said on standard error at the end. Of the networks that can't be
read ten are named there and all are counted, each as its own file has it, and
the status is 1 then. RANGE within ::ffff:0:0/96 is read as by export.

The formats cidr, nft and ipset write what changes in the list that export would
write, with the same options: -BLOCK and +BLOCK, or what takes the blocks out of
the sets that were filled from OLD, and puts new ones in. That of nft is done
whole or not at all; that of ipset passes over what is there or gone already.";

const BUILD_EXAMPLE: &str = "Examples:
  mmdb export GeoLite2-City.mmdb |
      mmdb build copy.mmdb --from - --types-like GeoLite2-City.mmdb
  mmdb build offices.mmdb --from offices.csv --format csv --type asn=uint32

Lines of JSON are what export writes: an object with a network and its record,
or the values at paths; a range of addresses stands as \"range\":[FIRST,LAST],
and a record that is null is no value. CSV and TSV have a header: a column has
the network, or two have a range, and every other one the values at the path
that it is named by; an empty cell is no value.

An address has the value of the longest prefix, whatever the order of the lines;
of equal networks the last one counts. JSON does not show all types: without
--type and --types-like a text is a string, a number with a point or an exponent
a double, and any other the least of uint32, uint64, uint128 and int32 that has
it. Cells are strings. The types: string, bytes (in base64), bool, int32, uint16,
uint32, uint64, uint128, double, float. A path of --type, or of a value of
--types-like, that no row has is an error. Paths that got values of several
types are said at the end.

Up to 20 lines that are wrong are named on standard error, and OUT stays as it
was. A quote that is not closed ends the run. OUT takes its name when it is whole,
and only what is no file or a MaxMind DB file is replaced; its mode, group and
owner are kept as far as the system lets it. SOURCE_DATE_EPOCH serves where there
is no --build-epoch.";

const INSTALL_EXAMPLE: &str = "Example:
  mmdb install download/GeoLite2-City.mmdb /var/lib/GeoIP/GeoLite2-City.mmdb \\
      --database-type '*City' --max-change 20 | grep -q ': replaced$' && reload

NEW takes the place of DEST only where it is whole and all its records can be
read, its database type and IP version are those of DEST, it is not older, and
it was not built more than a day ahead. DEST is the old file or the new one,
whole, whatever fails; who has it open keeps the old one. Its mode, group and
owner are kept as far as the system lets it, of a symbolic link the target is
replaced, and a missing DEST is made. Another run of install or build for DEST
is waited for, up to ten seconds. With status 0 standard output says DEST:
replaced or DEST: unchanged. Any reason against it is one line, and the status
is 1.";

/// An argument of a command: its name, what its value is called, its help, and what else there is to say.
#[derive(Clone, Copy)]
enum Argument {
    /// One text in its place, which has to be there.
    Required(&'static str, &'static str),
    /// One text in its place.
    Optional(&'static str, &'static str),
    /// Texts in their places, one or more.
    Several(&'static str, &'static str),
    /// Texts in their places, or none.
    More(&'static str, &'static str),
    /// An option without a value.
    Flag(&'static str, &'static str),
    /// An option with a value.
    Value(&'static str, &'static str, &'static str),
    /// An option with a value each time that it is given.
    Values(&'static str, &'static str, &'static str),
    /// An option with a value, which is the last text here if it is not given.
    Default(&'static str, &'static str, &'static str, &'static str),
    /// An option with a value, which has to be given.
    Needed(&'static str, &'static str, &'static str),
    /// An option with a value each time that it is given, under either of two names, of which help shows the first.
    Aliased(&'static str, &'static str, &'static str, &'static str),
    /// An option with one of these values, the first if it is not given.
    Choice(&'static str, &'static str, &'static str, &'static [&'static str]),
    /// An option with one of these values.
    OneOf(&'static str, &'static str, &'static str, &'static [&'static str]),
    /// An option with a value, which goes with none of these.
    Without(&'static str, &'static str, &'static str, &'static [&'static str]),
}

impl Argument {
    // The name of an option that may be left out and has no value then.
    fn optional_name(self) -> Option<&'static str> {
        match self {
            Argument::Flag(name, _) => Some(name),
            Argument::Value(name, _, _) => Some(name),
            Argument::Values(name, _, _) => Some(name),
            Argument::Aliased(name, _, _, _) => Some(name),
            Argument::OneOf(name, _, _, _) => Some(name),
            Argument::Without(name, _, _, _) => Some(name),
            _ => None,
        }
    }

    // Whether a word of the command line gives an option of this name or of its other one.
    fn is_given(self, name: &str, words: &[String]) -> bool {
        match self {
            Argument::Aliased(_, other, _, _) => is_given(words, name) || is_given(words, other),
            _ => is_given(words, name),
        }
    }
}

/// Which options of a command are made. Each start pays for what is made.
#[derive(Clone, Copy, PartialEq, Eq)]
pub(crate) enum MadeOptions {
    /// Those that the words of the command line give, and those that have a value else: all that is looked for.
    Given,
    /// All: what help and errors may name.
    All,
}

/// A command with what its help says.
#[derive(Clone, Copy)]
struct Usage {
    name: &'static str,
    about: &'static str,
    example: &'static str,
    arguments: &'static [Argument],
}

const FILE: Argument = Argument::Required("FILE", "A MaxMind DB file");

const FIELDS: Argument = Argument::Aliased(
    "field",
    "path",
    "PATH",
    "Only the value at a path, as country.iso_code, or NAME=PATH; may be repeated",
);

const WHERE: Argument = Argument::Values(
    "where",
    "PATH=VALUE",
    "Only networks with this value at the path, or one of PATH=@FILE; may be repeated",
);

const WHERE_NOT: Argument = Argument::Values(
    "where-not",
    "PATH=VALUE",
    "No networks with this value at the path, nor one of PATH=@FILE; may be repeated",
);

const WHERE_CONTAINS: Argument = Argument::Values(
    "where-contains",
    "PATH=TEXT",
    "Only networks with a text at the path that has TEXT in it; may be repeated",
);

const WHERE_HAS: Argument = Argument::Values(
    "where-has",
    "PATH",
    "Only networks with any value at the path; may be repeated",
);

const WHERE_ABOVE: Argument = Argument::Values(
    "where-above",
    "PATH=NUMBER",
    "Only networks with a greater number at the path; may be repeated",
);

const WHERE_BELOW: Argument = Argument::Values(
    "where-below",
    "PATH=NUMBER",
    "Only networks with a smaller number at the path; may be repeated",
);

const ALSO: Argument = Argument::Values(
    "also",
    "FILE",
    "Blocks that a list has too, - for standard input; may be repeated",
);

const EXCEPT: Argument = Argument::Values(
    "except",
    "FILE",
    "Blocks that a list has not, - for standard input; may be repeated",
);

const IPV4: Argument = Argument::Flag("ipv4", "Only IPv4 networks");

const IPV6: Argument = Argument::Flag("ipv6", "Only IPv6 networks");

const NAME: Argument = Argument::Value(
    "name",
    "NAME",
    "How the sets of nft and ipset begin, or a chain's or a variable's name, mmdb if not given",
);

const TABLE: Argument = Argument::Value(
    "table",
    "TABLE",
    "The table of nft that has the sets, mmdb if not given",
);

const FAMILY: Argument = Argument::OneOf(
    "family",
    "FAMILY",
    "The family of that table, inet if not given",
    &["inet", "ip", "ip6", "bridge", "netdev"],
);

const ALLOW_EMPTY: Argument = Argument::Flag(
    "allow-empty",
    "Write a list of networks even where it has none",
);

const ALLOW_MISSING: Argument = Argument::Flag(
    "allow-missing",
    "Write a list even where no network has a value of a condition",
);

const OUTPUT: Argument = Argument::Value(
    "output",
    "FILE",
    "Write to this file, which is replaced when all is done, and else stays as it was",
);

/// What says of columns, which lines of JSON have not.
const COLUMNS: &[&str] = &["column", "delimiter", "header"];

/// The commands that look at a file, or up in it.
const READING: &[Usage] = &[
    Usage {
        name: "show",
        about: "Show the records of addresses as JSON",
        example: SHOW_EXAMPLE,
        arguments: &[
            FILE,
            Argument::Several("ADDR", "IPv4 or IPv6 addresses, and more files"),
            FIELDS,
            Argument::Flag(
                "lines",
                "One line each, as where standard output is no terminal",
            ),
        ],
    },
    Usage {
        name: "info",
        about: "Show what a database says of itself",
        example: INFO_EXAMPLE,
        arguments: &[
            Argument::Several("FILE", "MaxMind DB files"),
            Argument::Flag("json", "As JSON"),
            Argument::Flag(
                "fields",
                "Also the paths of its records, with types and how many records have them",
            ),
        ],
    },
    Usage {
        name: "enrich",
        about: "Copy lines from standard input, with fields of the address's record behind each",
        example: ENRICH_EXAMPLE,
        arguments: &[
            Argument::Several(
                "FILE",
                "MaxMind DB files; a field is that of the first that has it",
            ),
            Argument::Default(
                "column",
                "COLUMN",
                "The column of the address: its number, from 1, or with --header its name",
                "1",
            ),
            Argument::Value(
                "delimiter",
                "CHARACTER",
                "What stands between columns, a tab if not given; any other means CSV",
            ),
            Argument::Aliased(
                "field",
                "path",
                "PATH",
                "A field to add, or NAME=PATH; may be repeated; needed in rows unless with --network",
            ),
            Argument::Flag(
                "network",
                "Also the network of the address, before the fields",
            ),
            Argument::Flag(
                "header",
                "The first line names the columns; the fields' names are added to it",
            ),
            Argument::Without(
                "json",
                "PATH",
                "Lines are JSON: the path of the address in an object, as client.ip",
                COLUMNS,
            ),
            Argument::Without(
                "into",
                "NAME",
                "With --json: the name of the member that is added, geo if not given",
                COLUMNS,
            ),
            Argument::Flag(
                "nulls",
                "With --json: lines without a record get the member too, with nulls",
            ),
            Argument::Choice(
                "hop",
                "WHICH",
                "Of addresses with commas between them, as in X-Forwarded-For, or anywhere, this one",
                &["first", "last"],
            ),
            Argument::Flag(
                "anywhere",
                "The address may stand anywhere in the line; the first, unless with --hop last",
            ),
            Argument::Flag(
                "exact",
                "An address counts only where the cell holds nothing else",
            ),
            Argument::Flag(
                "no-quotes",
                "With --delimiter: quotes mean nothing, and each line is a row",
            ),
            Argument::Flag(
                "strict",
                "Status 1 where a line got no answer, or something was warned of",
            ),
            Argument::Flag(
                "quiet",
                "No notes on standard error but of what sets the status",
            ),
            Argument::Flag(
                "reload",
                "Use a database that is replaced meanwhile, within a second",
            ),
            OUTPUT,
        ],
    },
];

/// The command that writes networks.
const EXPORTING: &[Usage] = &[Usage {
    name: "export",
    about: "Write every network that has data, with its record or fields of it",
    example: EXPORT_EXAMPLE,
    arguments: &[
        FILE,
        Argument::More(
            "RANGE",
            "Only what networks have of this one; and more files",
        ),
        FIELDS,
        Argument::Choice(
            "format",
            "FORMAT",
            "csv needs a --field",
            &[
                "jsonl", "csv", "cidr", "nft", "ipset", "iptables", "nginx", "haproxy", "pf",
            ],
        ),
        WHERE,
        WHERE_NOT,
        WHERE_CONTAINS,
        WHERE_HAS,
        WHERE_ABOVE,
        WHERE_BELOW,
        ALSO,
        EXCEPT,
        IPV4,
        IPV6,
        NAME,
        TABLE,
        FAMILY,
        Argument::Value(
            "jump",
            "TARGET",
            "The target of the rules of iptables, DROP if not given",
        ),
        Argument::Value(
            "value",
            "VALUE",
            "The value of each network for nginx and haproxy, 1 if not given",
        ),
        ALLOW_EMPTY,
        ALLOW_MISSING,
        OUTPUT,
    ],
}];

/// The command that compares files.
const COMPARING: &[Usage] = &[Usage {
    name: "diff",
    about: "Write what changed between two files",
    example: DIFF_EXAMPLE,
    arguments: &[
        Argument::Required("OLD", "The MaxMind DB file before"),
        Argument::Required("NEW", "The MaxMind DB file after"),
        Argument::Optional("RANGE", "Only inside this network"),
        FIELDS,
        Argument::Choice(
            "format",
            "FORMAT",
            "csv needs a --field",
            &["jsonl", "csv", "cidr", "nft", "ipset"],
        ),
        WHERE,
        WHERE_NOT,
        WHERE_CONTAINS,
        WHERE_HAS,
        WHERE_ABOVE,
        WHERE_BELOW,
        ALSO,
        EXCEPT,
        IPV4,
        IPV6,
        NAME,
        TABLE,
        FAMILY,
        ALLOW_EMPTY,
        ALLOW_MISSING,
        Argument::Flag("exit-code", "Status 7 where something differs"),
        OUTPUT,
    ],
}];

/// The command that checks files.
const CHECKING: &[Usage] = &[Usage {
    name: "verify",
    about: "Check whether files are whole and all their records can be read",
    example: VERIFY_EXAMPLE,
    arguments: &[
        Argument::Several("FILE", "MaxMind DB files"),
        Argument::Flag("whole", "Only whether files are whole"),
        Argument::Value(
            "database-type",
            "TYPE",
            "The type that each file has to have; a * at an end, and nowhere else, is any text",
        ),
        Argument::Value(
            "newer-than",
            "OLD",
            "The MaxMind DB file after which each file has to be built",
        ),
        Argument::Value(
            "max-age",
            "DAYS",
            "How many days ago each file may be built at most",
        ),
        Argument::Flag("json", "An object for each file"),
        Argument::Flag("quiet", "No output, only the status; errors are still said"),
    ],
}];

/// The commands that make files.
const MAKING: &[Usage] = &[
    Usage {
        name: "install",
        about: "Put a file in the place of another one, after it was checked",
        example: INSTALL_EXAMPLE,
        arguments: &[
            Argument::Required("NEW", "The MaxMind DB file that was downloaded"),
            Argument::Required("DEST", "The MaxMind DB file that is replaced"),
            Argument::Value(
                "max-change",
                "PERCENT",
                "No more of the IPv4 addresses, or of the IPv6 /48s, than this may have changed",
            ),
            Argument::Value(
                "database-type",
                "TYPE",
                "The type that NEW has to have; a * at an end, and nowhere else, is any text",
            ),
            Argument::Flag("allow-older", "NEW may be older than DEST"),
            Argument::Flag("allow-broken", "DEST may be empty or no MaxMind DB file"),
            Argument::Flag("dry-run", "Only say what would be done"),
            Argument::Flag("quiet", "No output and no notes but what could not be kept"),
        ],
    },
    Usage {
        name: "build",
        about: "Make a MaxMind DB file of lines of JSON, CSV or TSV",
        example: BUILD_EXAMPLE,
        arguments: &[
            Argument::Required("OUT", "The MaxMind DB file that is made or replaced"),
            Argument::Needed("from", "FILE", "Where the lines are, - for standard input"),
            Argument::Choice(
                "format",
                "FORMAT",
                "What the lines are",
                &["jsonl", "csv", "tsv"],
            ),
            Argument::Value(
                "network-column",
                "NAME",
                "The column or member of the network, network if not given",
            ),
            Argument::Without(
                "range-columns",
                "FIRST,LAST",
                "The columns or members of the first address and the last one",
                &["network-column"],
            ),
            Argument::Values(
                "type",
                "PATH=TYPE",
                "The type of the values at a path, which a row has to have; may be repeated",
            ),
            Argument::Value(
                "types-like",
                "FILE",
                "The types are those of the values at the same paths of this MaxMind DB file",
            ),
            Argument::Choice(
                "equal",
                "WHAT",
                "Of equal networks the last counts, or they are an error",
                &["last", "error"],
            ),
            Argument::Default(
                "database-type",
                "TYPE",
                "The type of the database",
                "Custom",
            ),
            Argument::Values(
                "description",
                "LANG=TEXT",
                "A description in a language, en and the type if not given; may be repeated",
            ),
            Argument::Values(
                "language",
                "LANG",
                "A language in which records have names; may be repeated",
            ),
            Argument::Value(
                "build-epoch",
                "SECONDS",
                "When the file was built, in seconds since 1970, now if not given",
            ),
            Argument::Choice(
                "ip-version",
                "VERSION",
                "6 for IPv4 and IPv6, 4 for IPv4 alone",
                &["6", "4"],
            ),
            Argument::OneOf(
                "record-size",
                "BITS",
                "The size of the tree's records, the least that serves if not given",
                &["24", "28", "32"],
            ),
            Argument::Choice(
                "reserved",
                "WHAT",
                "Networks in reserved ones are kept, skipped, or an error",
                &["keep", "skip", "error"],
            ),
            Argument::Flag("skip-bad", "Leave out lines that are wrong, and count them"),
            Argument::Flag(
                "check",
                "Read the file back, and compare every network with the lines",
            ),
        ],
    },
];

// An argument in its place.
fn positional<'a>(alloc: Global, name: &'a str, help: &'a str) -> Arg<'a> {
    Arg::new(alloc, name).help(help)
}

// An option with a value.
fn option<'a>(alloc: Global, name: &'a str, value: &'a str, help: &'a str) -> Arg<'a> {
    positional(alloc, name, help).long(name).value_name(value)
}

fn argument_of<'a>(alloc: Global, argument: Argument) -> Result<Arg<'a>, AllocError> {
    Ok(match argument {
        Argument::Required(name, help) => positional(alloc, name, help).required(true),
        Argument::Optional(name, help) => positional(alloc, name, help),
        Argument::Several(name, help) => {
            positional(alloc, name, help).required(true).num_args(1..)
        }
        Argument::More(name, help) => positional(alloc, name, help).num_args(1..),
        Argument::Flag(name, help) => positional(alloc, name, help)
            .long(name)
            .action(ArgAction::SetTrue),
        Argument::Value(name, value, help) => option(alloc, name, value, help),
        Argument::Values(name, value, help) => {
            option(alloc, name, value, help).action(ArgAction::Append)
        }
        Argument::Aliased(name, other, value, help) => {
            let argument = option(alloc, name, value, help).action(ArgAction::Append);
            return argument.alias(other);
        }
        Argument::Default(name, value, help, default) => {
            option(alloc, name, value, help).default_value(default)
        }
        Argument::Needed(name, value, help) => option(alloc, name, value, help).required(true),
        Argument::Choice(name, value, help, values) => {
            let default = values.first().copied().unwrap_or("");
            option(alloc, name, value, help)
                .value_parser(values)
                .default_value(default)
        }
        Argument::OneOf(name, value, help, values) => {
            option(alloc, name, value, help).value_parser(values)
        }
        Argument::Without(name, value, help, others) => {
            return option(alloc, name, value, help).conflicts_with_all(others);
        }
    })
}

// Whether a word of the command line gives this option.
fn is_given(words: &[String], name: &str) -> bool {
    words.iter().any(|word| match word.as_str().strip_prefix("--") {
        Some(option) => option.split('=').next() == Some(name),
        None => false,
    })
}

// Whether an argument is made.
fn is_made(argument: Argument, words: &[String], options: MadeOptions) -> bool {
    match argument.optional_name() {
        Some(name) => options == MadeOptions::All || argument.is_given(name, words),
        None => true,
    }
}

// A command with its arguments.
fn command_of<'a>(
    alloc: Global,
    usage: &Usage,
    words: &[String],
    options: MadeOptions,
) -> Result<Command<'a>, AllocError> {
    let mut command = Command::new(alloc, usage.name)
        .about(usage.about)
        .after_help(usage.example);
    for argument in usage.arguments {
        if is_made(*argument, words, options) {
            command = command.arg(argument_of(alloc, *argument)?)?;
        }
    }
    Ok(command)
}

// Whether a word of the command line is this one.
fn is_among(words: &[String], name: &str) -> bool {
    words.iter().any(|word| word.as_str() == name)
}

// A program with more commands. A command has its own arguments only where its name is in the command line: else nobody asks
// for it or its help.
fn with_commands<'a>(
    alloc: Global,
    program: Command<'a>,
    words: &[String],
    options: MadeOptions,
    usages: &[Usage],
) -> Result<Command<'a>, AllocError> {
    let mut program = program;
    for usage in usages {
        let command = if is_among(words, usage.name) {
            command_of(alloc, usage, words, options)?
        } else {
            Command::new(alloc, usage.name).about(usage.about)
        };
        program = program.subcommand(command)?;
    }
    Ok(program)
}

fn with_reading<'a>(
    alloc: Global,
    program: Command<'a>,
    words: &[String],
    options: MadeOptions,
) -> Result<Command<'a>, AllocError> {
    with_commands(alloc, program, words, options, READING)
}

fn with_exporting<'a>(
    alloc: Global,
    program: Command<'a>,
    words: &[String],
    options: MadeOptions,
) -> Result<Command<'a>, AllocError> {
    with_commands(alloc, program, words, options, EXPORTING)
}

fn with_comparing<'a>(
    alloc: Global,
    program: Command<'a>,
    words: &[String],
    options: MadeOptions,
) -> Result<Command<'a>, AllocError> {
    with_commands(alloc, program, words, options, COMPARING)
}

fn with_checking<'a>(
    alloc: Global,
    program: Command<'a>,
    words: &[String],
    options: MadeOptions,
) -> Result<Command<'a>, AllocError> {
    with_commands(alloc, program, words, options, CHECKING)
}

fn with_making<'a>(
    alloc: Global,
    program: Command<'a>,
    words: &[String],
    options: MadeOptions,
) -> Result<Command<'a>, AllocError> {
    with_commands(alloc, program, words, options, MAKING)
}

/// The program's commands, of which those that the words of a command line name have arguments: these options.
pub(crate) fn command<'a>(
    alloc: Global,
    words: &[String],
    options: MadeOptions,
) -> Result<Command<'a>, AllocError> {
    let program = Command::new(alloc, "mmdb")
        .version("0.1.0")
        .about("Read and make MaxMind DB files (GeoIP2, GeoLite2 and others)")
        .subcommand_required(true)
        .arg_required_else_help(true);
    let program = with_reading(alloc, program, words, options)?;
    let program = with_exporting(alloc, program, words, options)?;
    let program = with_comparing(alloc, program, words, options)?;
    let program = with_checking(alloc, program, words, options)?;
    with_making(alloc, program, words, options)
}
