//! Rows with fields after them.
ghost use Rattle.std.specs.Prelude.{◌≡◌, ◌∷◌, [], OnErr, OnOk, OnSome, IfOk, true, false};
ghost use Rattle.std.specs.Io.KnownBytes.{IsAtEnd};
ghost use Rattle.mmdb_filter.specs.Lines.{IsBegun, IsFiltered};
ghost use Rattle.mmdb_cmd_enrich.specs.Copied.{AreAllCopied, AreRowsCopied};
ghost use Rattle.mmdb_cmd_enrich.specs.Stretches.{AreAsked, IsEnriched, IsEnrichedFront, additions_of};
ghost use Rattle.mmdb_cmd_enrich.specs.Tasks.{AreCellsAsked, IsMemberAsked, IsMemberOf, has_network};
ghost use Rattle.mmdb_cmd_enrich.specs.Template.{Template as SpecTemplate};

use crate::ask::{Ask, OneDatabase};
use crate::enrichment::Enrichment;
use crate::fields::wanted_fields;
use crate::header::{Columns, columns_of_input};
use crate::input::{Counted, InputKind, copy_mark, kind_of_input};
use crate::layers::Databases;
use crate::members::{MemberKind, NamedField};
use crate::notes::Notes;
use crate::object_member::ObjectMember;
use crate::opening::open_all;
use crate::output::Output;
use crate::reload::{Lookout, reopen};
use crate::row_cells::RowCells;
use crate::task::{JsonTask, LINES, RowsTask, json_task, rows_task};
use crate::template::Template;
use crate::warnings::{AddressPlace, Remembering, Warnings};
use crate::watch::{Watch, WatchedRows};
use mmdb_arguments::EnrichArguments;
use mmdb_console::{Console, Pace, ProgramError, ProgressLine, line_of};
use mmdb_filter::{Additions, Counts, Live, MOST_ASKED, Rows, filter_rows, has_room};
use mmdb_layout::{Database, keys_of_all};
use mmdb_reader::PathElement;
use std::alloc::{AllocError, Global};
use std::cell::Cell;
use std::env::Env;
use std::io::{self, ErrorKind, Write};
use std::mem;
use std::rt::Files;
use std::time::Clock;

/// What the names of records may not be: `show` has the address under it.
const ADDRESS: &str = "address";

/// What is said of rows of which only the beginning is seen, where the first one names the columns.
const UNCOUNTED: &str = "of more than 65536 bytes, of which no cells are counted";

// Adds how many rows are besides so, and the first of them, where there are some.
fn push_named(
    alloc: Global,
    count: u64,
    so: &str,
    first: Option<u64>,
    text: &mut String,
) -> Result<(), AllocError> {
    let Some(first) = first else {
        return Ok(());
    };
    let more: String = format!(in alloc; ", {count} {so}, the first in row {first}")?;
    text.push_str(more.as_str())
}

// How rows fared, in words, with those that have more cells than the first row, and those that are too long to be counted so.
fn text_of_rows(
    alloc: Global,
    counts: Counts,
    records: &Notes,
    before: u64,
) -> Result<String, AllocError> {
    let Counts {
        found,
        absent,
        unreadable,
        rejected,
        ..
    } = counts;
    let mut text = format!(in alloc;
        "mmdb: {found} lines with a record, {absent} without, {unreadable} without an address, {rejected} with an error"
    )?;
    push_named(
        alloc,
        records.wider,
        "with more cells than the first line",
        records.first_wider.map(|row| row.saturating_add(before)),
        &mut text,
    )?;
    push_named(
        alloc,
        records.long,
        UNCOUNTED,
        records.first_long.map(|row| row.saturating_add(before)),
        &mut text,
    )?;
    line_of(alloc, Ok(text))
}

// How lines of JSON fared, in words.
fn text_of_objects(alloc: Global, counts: Counts) -> Result<String, AllocError> {
    let Counts {
        found,
        absent,
        unreadable,
        malformed,
        rejected,
        ..
    } = counts;
    format!(in alloc;
        "mmdb: {found} lines with a record, {absent} without, {unreadable} without an address, {rejected} with an error, {malformed} not objects of JSON"
    )
}

// The same with those that are too long, and those that have the member already, where there are some.
fn text_of_members(
    alloc: Global,
    counts: Counts,
    name: &str,
    notes: &Warnings<'_>,
) -> Result<String, AllocError> {
    let mut text = text_of_objects(alloc, counts)?;
    push_named(
        alloc,
        counts.too_long,
        "too long",
        notes.too_long,
        &mut text,
    )?;
    let already: String = format!(in alloc; "with a member {name} already")?;
    push_named(
        alloc,
        counts.occupied,
        already.as_str(),
        notes.occupied,
        &mut text,
    )?;
    line_of(alloc, Ok(text))
}

// What rows pass through, what is known of those that passed, and what is said of them.
#[derive(Drop)]
struct Passage<'r, 'n, 'a, R: Files + Clock> {
    rt: &'r R,
    /// What rows are.
    rows: Rows,
    /// What the databases are called.
    names: &'r [&'r str],
    kind: InputKind,
    /// How the rows fared that passed.
    counts: Counts,
    /// What is noted of their records.
    records: Notes,
    /// Whether it was said what is wrong with the first of them.
    is_checked: bool,
    notes: &'n mut Warnings<'a>,
    /// Whether replaced files are opened anew.
    reloads: bool,
    lookout: Lookout,
}

impl<'r, 'n, 'a, R: Files + Clock> Passage<'r, 'n, 'a, R> {
    // Of no row.
    fn new(
        rt: &'r R,
        alloc: Global,
        rows: Rows,
        names: &'r [&'r str],
        notes: &'n mut Warnings<'a>,
        lookout: Lookout,
    ) -> Passage<'r, 'n, 'a, R> {
        let mut records = Notes::new(alloc);
        records.passes_unasked = notes.is_quiet();
        Passage {
            rt,
            rows,
            names,
            kind: kind_of_input(rt),
            counts: Counts::new(),
            records,
            is_checked: false,
            notes,
            reloads: lookout.is_wanted,
            lookout,
        }
    }
}

// Copies rows with what is added to each, and counts how they fared. How many passed is shown on a terminal meanwhile. It
// ends before the input's end after the first thousand, and where a file was replaced. Whether it came to the input's end.
#[inline(never)]
fn filter<A: Additions, R: Files + Clock, I: Live, O: Write, E: Pace>(
    additions: &A,
    memory: &mut A::Memory,
    input: &mut Counted<'_, I>,
    passage: &mut Passage<'_, '_, '_, R>,
    console: &mut Console<'_, Output<'_, O>, E>,
) -> Result<bool, ProgramError>
    requires { A.fits additions.now memory.old }
    ensures whole { OnOk result (IsFiltered passage.old.rows (A.adds additions.now)
        (I.remaining input.old.input.now) (I.remaining input.new.input.now)
        (O.contents console.old.out.now.out.now) (O.contents console.new.out.now.out.now)
        passage.old.counts passage.new.counts) }
    ensures end { IfOk result (λ is_end. is_end ≡ true
        → OnSome (I.remaining input.old.input.now) (IsAtEnd (I.remaining input.new.input.now))) }
    ensures begun { OnErr result (IsBegun passage.old.rows (A.adds additions.now)
        (I.remaining input.old.input.now)
        (O.contents console.old.out.now.out.now) (O.contents console.new.out.now.out.now)) }
    ensures rows { passage.new.rows ≡ passage.old.rows }
    ensures reloads { passage.new.reloads ≡ passage.old.reloads }
    ensures fits { A.fits additions.now memory.new }
{
    let alloc = console.alloc;
    let bytes = input.bytes;
    let line = ProgressLine::new(alloc, "lines", console.errors);
    let rows = WatchedRows {
        size: passage.kind.size,
        stops: !passage.is_checked,
        is_quiet: passage.notes.is_quiet(),
        before: passage.notes.before,
    };
    let lookout = mem::replace(&mut passage.lookout, Lookout::new(alloc, passage.rt, false));
    let mut watch = Watch::new(alloc, line, rows, bytes, lookout, passage.rt);
    let filtered = filter_rows(
        alloc,
        passage.rows,
        additions,
        memory,
        passage.counts,
        input,
        console.out,
        &mut watch,
    );
    watch.clear();
    passage
        .notes
        .add(watch.quoted, watch.occupied, watch.too_long);
    passage.lookout = watch.lookout;
    let filtered = console.out.of_filter(filtered)?;
    passage.counts = filtered.counts;
    Ok(filtered.is_end)
}

// Says what is wrong with the first rows. Standard output stays as it is: what is said goes to standard error alone.
fn check_rows<R: Files + Clock, O: Write, E: Pace>(
    records: &Notes,
    databases: &[Database],
    passage: &mut Passage<'_, '_, '_, R>,
    console: &mut Console<'_, Output<'_, O>, E>,
)
    ensures output { console.new.out.now ≡ console.old.out.now }
    ensures rows { passage.new.rows ≡ passage.old.rows }
    ensures reloads { passage.new.reloads ≡ passage.old.reloads }
    ensures counts { passage.new.counts ≡ passage.old.counts }
{
    let mut none = io::sink();
    let mut reports = Console::new(console.alloc, console.terminals, &mut none, console.errors);
    passage
        .notes
        .check(passage.counts, records, databases, &mut reports);
    passage.is_checked = true;
}

// Copies rows up to the input's end, or until a file was replaced, and says whether that was the end. What is wrong with the
// first thousand is said when they passed.
fn copy_rows<A: Additions, R: Files + Clock, I: Live, O: Write, E: Pace>(
    additions: &A,
    memory: &mut A::Memory,
    databases: &[Database],
    input: &mut Counted<'_, I>,
    passage: &mut Passage<'_, '_, '_, R>,
    console: &mut Console<'_, Output<'_, O>, E>,
) -> Result<bool, ProgramError>
where
    A::Memory: Remembering,
    requires { A.fits additions.now memory.old }
    ensures whole { OnOk result (IsFiltered passage.old.rows (A.adds additions.now)
        (I.remaining input.old.input.now) (I.remaining input.new.input.now)
        (O.contents console.old.out.now.out.now) (O.contents console.new.out.now.out.now)
        passage.old.counts passage.new.counts) }
    ensures end { IfOk result (λ is_end. is_end ≡ true
        → OnSome (I.remaining input.old.input.now) (IsAtEnd (I.remaining input.new.input.now))) }
    ensures asked { IfOk result (λ is_end. is_end ≡ false
        → (passage.old.reloads ≡ true) × (passage.new.lookout.has_seen ≡ true)) }
    ensures begun { OnErr result (IsBegun passage.old.rows (A.adds additions.now)
        (I.remaining input.old.input.now)
        (O.contents console.old.out.now.out.now) (O.contents console.new.out.now.out.now)) }
    ensures rows { passage.new.rows ≡ passage.old.rows }
    ensures reloads { passage.new.reloads ≡ passage.old.reloads }
{
    for _ in 0..u64::MAX {
        let is_end = filter(additions, memory, input, passage, console)?;
        if is_end || passage.reloads && passage.lookout.has_seen {
            return Ok(is_end);
        }
        check_rows(memory.records(), databases, passage, console);
    }
    Err(ProgramError::from(io::Error::from(ErrorKind::TimedOut)))
}

// Reports how all rows fared, and answers the status. Standard output is flushed.
fn finish<R: Files + Clock, O: Write, E: Pace>(
    databases: &[Database],
    text: Result<String, AllocError>,
    passage: &mut Passage<'_, '_, '_, R>,
    console: &mut Console<'_, O, E>,
) -> Result<u8, ProgramError> {
    console.flush()?;
    console.rows_are_whole = true;
    let counts = passage.counts;
    passage
        .notes
        .finish(counts, &passage.records, databases, console);
    let unasked = passage.records.unasked;
    Ok(passage.notes.end(counts, unasked, text, console))
}

// Copies rows with what is added to each, by a memory of no row, up to the input's end or until a file was replaced, and says
// whether that was the end.
fn enrich_with<A: Additions, R: Files + Clock, I: Live, O: Write, E: Pace>(
    additions: &A,
    memory: A::Memory,
    databases: &[Database],
    input: &mut Counted<'_, I>,
    passage: &mut Passage<'_, '_, '_, R>,
    console: &mut Console<'_, Output<'_, O>, E>,
) -> Result<bool, ProgramError>
where
    A::Memory: Remembering,
    requires { A.fits additions.now memory }
    ensures whole { OnOk result (IsFiltered passage.old.rows (A.adds additions.now)
        (I.remaining input.old.input.now) (I.remaining input.new.input.now)
        (O.contents console.old.out.now.out.now) (O.contents console.new.out.now.out.now)
        passage.old.counts passage.new.counts) }
    ensures end { IfOk result (λ is_end. is_end ≡ true
        → OnSome (I.remaining input.old.input.now) (IsAtEnd (I.remaining input.new.input.now))) }
    ensures asked { IfOk result (λ is_end. is_end ≡ false
        → (passage.old.reloads ≡ true) × (passage.new.lookout.has_seen ≡ true)) }
    ensures begun { OnErr result (IsBegun passage.old.rows (A.adds additions.now)
        (I.remaining input.old.input.now)
        (O.contents console.old.out.now.out.now) (O.contents console.new.out.now.out.now)) }
    ensures rows { passage.new.rows ≡ passage.old.rows }
    ensures reloads { passage.new.reloads ≡ passage.old.reloads }
{
    let mut memory = memory;
    let done = copy_rows(additions, &mut memory, databases, input, passage, console);
    passage.records = mem::replace(memory.records_mut(), Notes::new(console.alloc));
    done
}

// Copies rows with what is added to each.
fn enrich_by<D: Ask, W: Template, R: Files + Clock, I: Live, O: Write, E: Pace>(
    enrichment: &Enrichment<D, W>,
    databases: &[Database],
    input: &mut Counted<'_, I>,
    passage: &mut Passage<'_, '_, '_, R>,
    console: &mut Console<'_, Output<'_, O>, E>,
) -> Result<bool, ProgramError>
    ensures whole { OnOk result (IsFiltered passage.old.rows (additions_of
        (W.template enrichment.now.what) (D.databases enrichment.now.from))
        (I.remaining input.old.input.now) (I.remaining input.new.input.now)
        (O.contents console.old.out.now.out.now) (O.contents console.new.out.now.out.now)
        passage.old.counts passage.new.counts) }
    ensures end { IfOk result (λ is_end. is_end ≡ true
        → OnSome (I.remaining input.old.input.now) (IsAtEnd (I.remaining input.new.input.now))) }
    ensures asked { IfOk result (λ is_end. is_end ≡ false
        → (passage.old.reloads ≡ true) × (passage.new.lookout.has_seen ≡ true)) }
    ensures begun { OnErr result (IsBegun passage.old.rows (additions_of
        (W.template enrichment.now.what) (D.databases enrichment.now.from))
        (I.remaining input.old.input.now)
        (O.contents console.old.out.now.out.now) (O.contents console.new.out.now.out.now)) }
    ensures rows { passage.new.rows ≡ passage.old.rows }
    ensures reloads { passage.new.reloads ≡ passage.old.reloads }
{
    let records = mem::replace(&mut passage.records, Notes::new(console.alloc));
    let memory = enrichment.memory(records)?;
    enrich_with(enrichment, memory, databases, input, passage, console)
}

// Copies rows with what a template adds to each, of one database or of several. One alone needs no name.
fn enrich_from<W: Template + Drop, R: Files + Clock, I: Live, O: Write, E: Pace>(
    what: W,
    databases: &[Database],
    input: &mut Counted<'_, I>,
    passage: &mut Passage<'_, '_, '_, R>,
    console: &mut Console<'_, Output<'_, O>, E>,
) -> Result<bool, ProgramError>
    ensures whole { OnOk result (IsFiltered passage.old.rows
        (additions_of (W.template what) databases.now)
        (I.remaining input.old.input.now) (I.remaining input.new.input.now)
        (O.contents console.old.out.now.out.now) (O.contents console.new.out.now.out.now)
        passage.old.counts passage.new.counts) }
    ensures end { IfOk result (λ is_end. is_end ≡ true
        → OnSome (I.remaining input.old.input.now) (IsAtEnd (I.remaining input.new.input.now))) }
    ensures asked { IfOk result (λ is_end. is_end ≡ false
        → (passage.old.reloads ≡ true) × (passage.new.lookout.has_seen ≡ true)) }
    ensures begun { OnErr result (IsBegun passage.old.rows
        (additions_of (W.template what) databases.now)
        (I.remaining input.old.input.now)
        (O.contents console.old.out.now.out.now) (O.contents console.new.out.now.out.now)) }
    ensures rows { passage.new.rows ≡ passage.old.rows }
    ensures reloads { passage.new.reloads ≡ passage.old.reloads }
{
    let alloc = console.alloc;
    if let [database] = databases {
        let from = OneDatabase { reader: database };
        let enrichment = Enrichment { alloc, from, what };
        return enrich_by(&enrichment, databases, input, passage, console);
    }
    let from = Databases {
        readers: databases,
        names: passage.names,
    };
    let enrichment = Enrichment { alloc, from, what };
    enrich_by(&enrichment, databases, input, passage, console)
}

// Fields after each row.
fn cells_of(task: RowsTask<'_>, columns: Columns) -> RowCells<'_>
    ensures rows { result.rows ≡ task.entry.rows }
    ensures reading { result.reading ≡ task.entry.reading }
    ensures column { result.column ≡ columns.address }
    ensures breaks { result.breaks ≡ columns.breaks }
    ensures network { result.network ≡ task.entry.network }
    ensures paths { result.paths ≡ task.entry.paths }
{
    RowCells {
        rows: task.rows,
        reading: task.reading,
        column: columns.address,
        breaks: columns.breaks,
        network: task.network,
        paths: task.paths,
    }
}

// The fields that are the records of so many databases.
fn record_fields<'k>(alloc: Global, keys: &'k [String]) -> Result<Vec<NamedField<'k>>, AllocError> {
    let mut fields = Vec::new(alloc);
    for (number, key) in keys.iter().enumerate() {
        let mut path = Vec::new(alloc);
        path.push(PathElement::Index(number))?;
        fields.push(NamedField {
            name: key.as_str(),
            path,
        })?;
    }
    Ok(fields)
}

// What the member has, of so many databases: of one alone without a field all of its record.
fn kind_of(task: &JsonTask<'_>, databases: &[Database]) -> MemberKind
    ensures { has_network result ≡ task.now.network }
{
    if task.network {
        MemberKind::NetworkAndFields
    } else if task.fields.is_empty() && databases.len() > 1 {
        MemberKind::Records
    } else {
        MemberKind::Fields
    }
}

// The fields that a member has: the records by these names, or those that are asked for.
fn fields_of<'k>(
    alloc: Global,
    kind: MemberKind,
    keys: &'k [String],
    asked: Vec<NamedField<'k>>,
) -> Result<Vec<NamedField<'k>>, AllocError> {
    if kind == MemberKind::Records {
        record_fields(alloc, keys)
    } else {
        Ok(asked)
    }
}

// Copies lines with a member more in each object, up to the input's end or until a file was replaced, and says whether that
// was the end.
fn enrich_json<R: Files + Clock, I: Live, O: Write, E: Pace>(
    databases: &[Database],
    task: JsonTask<'_>,
    input: &mut Counted<'_, I>,
    passage: &mut Passage<'_, '_, '_, R>,
    console: &mut Console<'_, Output<'_, O>, E>,
) -> Result<bool, ProgramError>
    ensures whole { OnOk result ((template : SpecTemplate) × IsMemberOf task.entry template
        × IsFiltered passage.old.rows (additions_of template databases.now)
        (I.remaining input.old.input.now) (I.remaining input.new.input.now)
        (O.contents console.old.out.now.out.now) (O.contents console.new.out.now.out.now)
        passage.old.counts passage.new.counts) }
    ensures end { IfOk result (λ is_end. is_end ≡ true
        → OnSome (I.remaining input.old.input.now) (IsAtEnd (I.remaining input.new.input.now))) }
    ensures asked { IfOk result (λ is_end. is_end ≡ false
        → (passage.old.reloads ≡ true) × (passage.new.lookout.has_seen ≡ true)) }
    ensures begun { OnErr result ((template : SpecTemplate) × IsMemberOf task.entry template
        × IsBegun passage.old.rows (additions_of template databases.now)
        (I.remaining input.old.input.now)
        (O.contents console.old.out.now.out.now) (O.contents console.new.out.now.out.now)) }
    ensures rows { passage.new.rows ≡ passage.old.rows }
    ensures reloads { passage.new.reloads ≡ passage.old.reloads }
{
    let alloc = console.alloc;
    let kind = kind_of(&task, databases);
    let keys = keys_of_all(alloc, passage.names, databases, ADDRESS)?;
    let what = ObjectMember {
        reading: task.reading,
        path: task.path,
        name: task.into,
        nulls: task.nulls,
        kind,
        reads_long: has_room(alloc, MOST_ASKED),
        fields: fields_of(alloc, kind, keys.as_slice(), task.fields)?,
    };
    enrich_from(what, databases, input, passage, console)
}

// Opens what took the place of files, if that was seen. What was noted of records is of those before. Standard output stays as it
// is: what is said goes to standard error alone.
fn take_new<R: Files + Clock, O: Write, E: Pace>(
    databases: &mut Vec<Database>,
    passage: &mut Passage<'_, '_, '_, R>,
    console: &mut Console<'_, O, E>,
)
    ensures output { console.new.out.now ≡ console.old.out.now }
    ensures rows { passage.new.rows ≡ passage.old.rows }
    ensures counts { passage.new.counts ≡ passage.old.counts }
    ensures reloads { passage.new.reloads ≡ passage.old.reloads }
    ensures kept { passage.old.reloads ≡ false → databases.new ≡ databases.old }
{
    if passage.reloads && passage.lookout.look(passage.rt) {
        let mut none = io::sink();
        let mut reports = Console::new(console.alloc, console.terminals, &mut none, console.errors);
        reopen(passage.rt, &mut passage.lookout, databases, &mut reports);
        passage.records.records.clear();
    }
}

// Copies all rows with fields after each. Where a file is replaced, the rows after that are looked up in the new one.
fn copy_columns<R: Files + Clock, I: Live, O: Write, E: Pace>(
    databases: &mut Vec<Database>,
    arguments: &EnrichArguments<'_>,
    columns: Columns,
    input: &mut Counted<'_, I>,
    passage: &mut Passage<'_, '_, '_, R>,
    console: &mut Console<'_, Output<'_, O>, E>,
) -> Result<(), ProgramError>
    ensures whole { OnOk result (IsEnriched passage.old.rows
        (AreAsked passage.old.reloads databases.old.items (AreCellsAsked arguments.now columns))
        (I.remaining input.old.input.now) (I.remaining input.new.input.now)
        (O.contents console.old.out.now.out.now) (O.contents console.new.out.now.out.now)
        passage.old.counts passage.new.counts) }
    ensures end { OnOk result
        (OnSome (I.remaining input.old.input.now) (IsAtEnd (I.remaining input.new.input.now))) }
    ensures begun { OnErr result (IsEnrichedFront passage.old.rows
        (AreAsked passage.old.reloads databases.old.items (AreCellsAsked arguments.now columns))
        (I.remaining input.old.input.now)
        (O.contents console.old.out.now.out.now) (O.contents console.new.out.now.out.now)) }
{
    for _ in 0..u64::MAX {
        take_new(databases, passage, console);
        let task = rows_task(console.alloc, &*arguments)?;
        let what = cells_of(task, columns);
        if enrich_from(what, databases.as_slice(), input, passage, console)? {
            return Ok(());
        }
    }
    Err(ProgramError::from(io::Error::from(ErrorKind::TimedOut)))
}

// Copies all lines with a member more in each object. Where a file is replaced, the lines after that are looked up in the new
// one.
fn copy_objects<R: Files + Clock, I: Live, O: Write, E: Pace>(
    databases: &mut Vec<Database>,
    arguments: &EnrichArguments<'_>,
    input: &mut Counted<'_, I>,
    passage: &mut Passage<'_, '_, '_, R>,
    console: &mut Console<'_, Output<'_, O>, E>,
) -> Result<(), ProgramError>
    ensures whole { OnOk result (IsEnriched passage.old.rows
        (AreAsked passage.old.reloads databases.old.items (IsMemberAsked arguments.now))
        (I.remaining input.old.input.now) (I.remaining input.new.input.now)
        (O.contents console.old.out.now.out.now) (O.contents console.new.out.now.out.now)
        passage.old.counts passage.new.counts) }
    ensures end { OnOk result
        (OnSome (I.remaining input.old.input.now) (IsAtEnd (I.remaining input.new.input.now))) }
    ensures begun { OnErr result (IsEnrichedFront passage.old.rows
        (AreAsked passage.old.reloads databases.old.items (IsMemberAsked arguments.now))
        (I.remaining input.old.input.now)
        (O.contents console.old.out.now.out.now) (O.contents console.new.out.now.out.now)) }
{
    let path = arguments.json.unwrap_or("");
    for _ in 0..u64::MAX {
        take_new(databases, passage, console);
        let task = json_task(console.alloc, path, &*arguments)?;
        if enrich_json(databases.as_slice(), task, input, passage, console)? {
            return Ok(());
        }
    }
    Err(ProgramError::from(io::Error::from(ErrorKind::TimedOut)))
}

// Copies the mark of an input, and then all rows with fields after each. The first row may name the columns.
fn copy_all_rows<R: Files + Clock, I: Live, O: Write, E: Pace>(
    databases: &mut Vec<Database>,
    task: &RowsTask<'_>,
    arguments: &EnrichArguments<'_>,
    input: &mut I,
    passage: &mut Passage<'_, '_, '_, R>,
    console: &mut Console<'_, Output<'_, O>, E>,
) -> Result<(), ProgramError>
    ensures { OnOk result (AreRowsCopied passage.old.rows task.now
        (λ columns. AreAsked passage.old.reloads databases.old.items
        (AreCellsAsked arguments.now columns)) (I.remaining input.old)
        (O.contents console.old.out.now.out.now) (O.contents console.new.out.now.out.now)
        passage.old.counts passage.new.counts) }
{
    copy_mark(input, console.out)?;
    let columns = columns_of_input(console.alloc, task, input, console.out)?;
    let bytes = Cell::new(0);
    let mut counted = Counted {
        input,
        bytes: &bytes,
    };
    copy_columns(
        databases,
        arguments,
        columns,
        &mut counted,
        passage,
        console,
    )
}

// Copies the mark of an input, and then all lines with a member more in each object.
fn copy_all_objects<R: Files + Clock, I: Live, O: Write, E: Pace>(
    databases: &mut Vec<Database>,
    arguments: &EnrichArguments<'_>,
    input: &mut I,
    passage: &mut Passage<'_, '_, '_, R>,
    console: &mut Console<'_, Output<'_, O>, E>,
) -> Result<(), ProgramError>
    ensures { OnOk result (AreAllCopied passage.old.rows
        (AreAsked passage.old.reloads databases.old.items (IsMemberAsked arguments.now))
        (I.remaining input.old)
        (O.contents console.old.out.now.out.now) (O.contents console.new.out.now.out.now)
        passage.old.counts passage.new.counts) }
{
    copy_mark(input, console.out)?;
    let bytes = Cell::new(0);
    let mut counted = Counted {
        input,
        bytes: &bytes,
    };
    copy_objects(databases, arguments, &mut counted, passage, console)
}

// Copies all rows with fields after each, and reports how they fared. The first row may name the columns.
fn enrich_all_rows<R: Files + Clock, I: Live, O: Write, E: Pace>(
    databases: &mut Vec<Database>,
    task: &RowsTask<'_>,
    arguments: &EnrichArguments<'_>,
    input: &mut I,
    passage: &mut Passage<'_, '_, '_, R>,
    console: &mut Console<'_, O, E>,
) -> Result<u8, ProgramError> {
    let alloc = console.alloc;
    let mut out = Output::new(console.out, passage.kind.is_live);
    let mut rows = Console::new(alloc, console.terminals, &mut out, console.errors);
    copy_all_rows(databases, task, arguments, input, passage, &mut rows)?;
    let (counts, before) = (passage.counts, passage.notes.before);
    let text = text_of_rows(alloc, counts, &passage.records, before);
    finish(databases.as_slice(), text, passage, console)
}

// Copies all lines with a member more in each object, and reports how they fared.
fn enrich_all_objects<R: Files + Clock, I: Live, O: Write, E: Pace>(
    databases: &mut Vec<Database>,
    name: &str,
    arguments: &EnrichArguments<'_>,
    input: &mut I,
    passage: &mut Passage<'_, '_, '_, R>,
    console: &mut Console<'_, O, E>,
) -> Result<u8, ProgramError> {
    let alloc = console.alloc;
    let mut out = Output::new(console.out, passage.kind.is_live);
    let mut lines = Console::new(alloc, console.terminals, &mut out, console.errors);
    copy_all_objects(databases, arguments, input, passage, &mut lines)?;
    let text = text_of_members(alloc, passage.counts, name, &*passage.notes);
    finish(databases.as_slice(), text, passage, console)
}

// Copies rows with fields of databases after each, and reports how they fared.
fn enrich_to_rows<R: Files + Env + Clock, I: Live, O: Write, E: Pace>(
    rt: &R,
    names: &[&str],
    arguments: &EnrichArguments<'_>,
    input: &mut I,
    console: &mut Console<'_, O, E>,
) -> Result<u8, ProgramError> {
    let task = rows_task(console.alloc, &*arguments)?;
    let fields = wanted_fields(console.alloc, arguments.fields.as_slice())?;
    let before = u64::from(task.header);
    let mut notes = Warnings::new(task.place(arguments), fields, before, arguments);
    let mut databases = Vec::new(console.alloc);
    let mut lookout = Lookout::new(console.alloc, rt, arguments.reload);
    if let Some(status) = open_all(rt, names, &mut databases, &mut lookout, console)? {
        return Ok(status);
    }
    let mut passage = Passage::new(rt, console.alloc, task.rows, names, &mut notes, lookout);
    enrich_all_rows(
        &mut databases,
        &task,
        &*arguments,
        input,
        &mut passage,
        console,
    )
}

// Copies lines with a member more in each object, and reports how they fared.
fn enrich_to_objects<R: Files + Env + Clock, I: Live, O: Write, E: Pace>(
    rt: &R,
    names: &[&str],
    arguments: &EnrichArguments<'_>,
    input: &mut I,
    console: &mut Console<'_, O, E>,
) -> Result<u8, ProgramError> {
    let path = arguments.json.unwrap_or("");
    let name = json_task(console.alloc, path, &*arguments)?.into;
    let fields = wanted_fields(console.alloc, arguments.fields.as_slice())?;
    let mut notes = Warnings::new(AddressPlace::Member(path), fields, 0, arguments);
    let mut databases = Vec::new(console.alloc);
    let mut lookout = Lookout::new(console.alloc, rt, arguments.reload);
    if let Some(status) = open_all(rt, names, &mut databases, &mut lookout, console)? {
        return Ok(status);
    }
    let mut passage = Passage::new(rt, console.alloc, LINES, names, &mut notes, lookout);
    enrich_all_objects(
        &mut databases,
        name,
        &*arguments,
        input,
        &mut passage,
        console,
    )
}

// The names of the databases, each once.
fn names_of<'a>(
    alloc: Global,
    arguments: &EnrichArguments<'a>,
) -> Result<Vec<&'a str>, AllocError> {
    let mut names = Vec::new(alloc);
    names.push(arguments.file)?;
    for name in &arguments.others {
        if !names.contains(name) {
            names.push(*name)?;
        }
    }
    Ok(names)
}

/// Copies lines with fields of databases in each, reports how they fared, and answers the status. Where replaced files are
/// wanted, rows that come after a file was replaced are looked up in the new one. An `Err` where an argument is not what is
/// wanted in its place, before a file is opened; where standard input can't be read, standard output can't be written, the
/// first row has no such column or is too long, or out of memory.
pub fn enrich<R: Files + Env + Clock, I: Live, O: Write, E: Pace>(
    rt: &R,
    arguments: &EnrichArguments<'_>,
    input: &mut I,
    console: &mut Console<'_, O, E>,
) -> Result<u8, ProgramError> {
    console.names_found = !arguments.quiet;
    let names = names_of(console.alloc, arguments)?;
    match arguments.json {
        Some(_) => enrich_to_objects(rt, names.as_slice(), arguments, input, console),
        None => enrich_to_rows(rt, names.as_slice(), arguments, input, console),
    }
}
