//! What a database says of itself, and which fields its records have.
use crate::fields::{Field, FieldPaths, fields_of};
use json::{Pretty, Token};
use mmdb_arguments::{InfoArguments, shown_text};
use mmdb_console::{Console, DONE, FAILED, ProgramError, line_of};
use mmdb_json::write_value;
use mmdb_layout::{Database, can_be_walked, open_database};
use mmdb_reader::{Metadata, Reader, Sections};
use mmdb_records::date_of;
use mmdb_value::Value;
use std::alloc::{AllocError, Global};
use std::collections::BTreeMap;
use std::env::Env;
use std::io::Write;
use std::rt::Files;

/// Lines that a person reads, added one after another.
#[derive(Drop)]
struct Lines {
    text: String,
    /// Whether something was not added, as there was no memory.
    is_cut: bool,
}

impl Lines {
    fn new(alloc: Global) -> Lines {
        Lines {
            text: String::new(alloc),
            is_cut: false,
        }
    }

    // Adds a text that was made, if there was memory for it.
    fn add(&mut self, made: Result<String, AllocError>) {
        let added = match made {
            Ok(made) => self.text.push_str(made.as_str()),
            Err(error) => Err(error),
        };
        self.is_cut |= added.is_err();
    }

    // Adds a line of a text that was made, in which no text of the file begins another one.
    fn add_line(&mut self, alloc: Global, made: Result<String, AllocError>) {
        self.add(line_of(alloc, made));
    }

    // All that was added.
    fn finish(self) -> Result<String, AllocError> {
        if self.is_cut {
            Err(AllocError)
        } else {
            Ok(self.text)
        }
    }
}

// When a database was built, by the number of seconds since 1970.
fn built_text(alloc: Global, seconds: u64) -> Result<String, AllocError> {
    match date_of(alloc, seconds)? {
        Some(date) => format!(in alloc; "{date} ({seconds} s)"),
        None => format!(in alloc; "{seconds} s after 1970"),
    }
}

// Adds what texts the metadata has.
fn add_texts(alloc: Global, metadata: &Metadata, lines: &mut Lines) {
    let kind = &metadata.database_type;
    lines.add_line(alloc, format!(in alloc; "type:        {kind}"));
    for (language, description) in &metadata.description {
        lines.add_line(
            alloc,
            format!(in alloc; "description: {description} ({language})"),
        );
    }
    lines.add(format!(in alloc; "languages:  "));
    for language in &metadata.languages {
        lines.add(format!(in alloc; " "));
        lines.add(shown_text(alloc, language.as_str()));
    }
}

// Adds what numbers the metadata has, and the sizes.
fn add_numbers(alloc: Global, metadata: &Metadata, sections: &Sections, lines: &mut Lines) {
    let ip = metadata.ip_version;
    lines.add(format!(in alloc; "\nIP version:  {ip}\nbuilt:       "));
    lines.add(built_text(alloc, metadata.build_epoch));
    let major = metadata.binary_format_major_version;
    let minor = metadata.binary_format_minor_version;
    let (nodes, bits) = (metadata.node_count, metadata.record_size);
    lines.add(format!(in alloc;
        "\nformat:      {major}.{minor}\nnodes:       {nodes}\nrecord size: {bits} bits\n"
    ));
    let (tree, data) = (sections.tree_bytes, sections.data_bytes);
    let metadata = sections.metadata_bytes;
    lines.add(format!(in alloc;
        "tree:        {tree} bytes\ndata:        {data} bytes\nmetadata:    {metadata} bytes\n"
    ));
}

// Adds how many distinct records there are, and the fields: how many of them have a value there, its type, and the path.
fn add_fields(alloc: Global, fields: &FieldPaths<'_>, lines: &mut Lines) -> Result<(), AllocError> {
    let records = fields.records;
    lines.add(format!(in alloc; "records:     {records}\n"));
    for Field {
        path,
        type_name,
        records,
    } in fields.rows()? {
        lines.add(format!(in alloc; "{records}\t{type_name}\t"));
        lines.add_line(alloc, String::from_str(alloc, path));
    }
    Ok(())
}

// The lines that a person reads.
fn text_of(
    alloc: Global,
    path: Option<&str>,
    metadata: &Metadata,
    sections: &Sections,
    fields: Option<&FieldPaths<'_>>,
) -> Result<String, AllocError> {
    let mut lines = Lines::new(alloc);
    if let Some(path) = path {
        lines.add_line(alloc, format!(in alloc; "file:        {path}"));
    }
    add_texts(alloc, metadata, &mut lines);
    add_numbers(alloc, metadata, sections, &mut lines);
    if let Some(fields) = fields {
        add_fields(alloc, fields, &mut lines)?;
    }
    lines.finish()
}

fn put_text(out: &mut Pretty, key: &str, text: &str) -> Result<(), AllocError> {
    out.token(Token::Key(key))?;
    out.token(Token::String(text))
}

fn put_number(alloc: Global, out: &mut Pretty, key: &str, number: u64) -> Result<(), AllocError> {
    out.token(Token::Key(key))?;
    write_value(alloc, &Value::U64(number), out)
}

// The descriptions, as an object.
fn put_descriptions(
    out: &mut Pretty,
    descriptions: &BTreeMap<String, String>,
) -> Result<(), AllocError> {
    out.token(Token::Key("description"))?;
    out.token(Token::BeginObject)?;
    for (language, description) in descriptions {
        put_text(out, language.as_str(), description.as_str())?;
    }
    out.token(Token::EndObject)
}

// The languages, as an array.
fn put_languages(out: &mut Pretty, languages: &[String]) -> Result<(), AllocError> {
    out.token(Token::Key("languages"))?;
    out.token(Token::BeginArray)?;
    for language in languages {
        out.token(Token::String(language.as_str()))?;
    }
    out.token(Token::EndArray)
}

// The date of a number of seconds, where it has one.
fn put_date(alloc: Global, out: &mut Pretty, seconds: u64) -> Result<(), AllocError> {
    match date_of(alloc, seconds)? {
        Some(date) => put_text(out, "build_time", date.as_str()),
        None => Ok(()),
    }
}

// The texts of the metadata.
fn put_texts(alloc: Global, out: &mut Pretty, metadata: &Metadata) -> Result<(), AllocError> {
    put_text(out, "database_type", metadata.database_type.as_str())?;
    put_descriptions(out, &metadata.description)?;
    put_languages(out, metadata.languages.as_slice())?;
    put_date(alloc, out, metadata.build_epoch)
}

// The numbers of the metadata, and the sizes.
fn put_numbers(
    alloc: Global,
    out: &mut Pretty,
    metadata: &Metadata,
    sections: &Sections,
) -> Result<(), AllocError> {
    for (key, number) in [
        ("build_epoch", metadata.build_epoch),
        (
            "binary_format_major_version",
            u64::from(metadata.binary_format_major_version),
        ),
        (
            "binary_format_minor_version",
            u64::from(metadata.binary_format_minor_version),
        ),
        ("ip_version", u64::from(metadata.ip_version)),
        ("node_count", u64::from(metadata.node_count)),
        ("record_size", u64::from(metadata.record_size)),
        ("tree_bytes", sections.tree_bytes as u64),
        ("data_bytes", sections.data_bytes as u64),
        ("metadata_bytes", sections.metadata_bytes as u64),
    ] {
        put_number(alloc, out, key, number)?;
    }
    Ok(())
}

// A field as an object.
fn put_field(alloc: Global, out: &mut Pretty, field: Field<'_>) -> Result<(), AllocError> {
    out.token(Token::BeginObject)?;
    put_text(out, "path", field.path)?;
    put_text(out, "type", field.type_name)?;
    put_number(alloc, out, "records", field.records)?;
    out.token(Token::EndObject)
}

// How many distinct records there are, and the fields, as an array.
fn put_fields(alloc: Global, out: &mut Pretty, fields: &FieldPaths<'_>) -> Result<(), AllocError> {
    put_number(alloc, out, "records", fields.records)?;
    put_number(alloc, out, "unreadable_records", fields.unreadable)?;
    out.token(Token::Key("fields"))?;
    out.token(Token::BeginArray)?;
    for field in fields.rows()? {
        put_field(alloc, out, field)?;
    }
    out.token(Token::EndArray)?;
    out.token(Token::Key("fields_are_cut"))?;
    write_value(alloc, &Value::Bool(fields.is_cut), out)
}

// All that is shown as an object.
fn put_object(
    alloc: Global,
    out: &mut Pretty,
    path: Option<&str>,
    metadata: &Metadata,
    sections: &Sections,
    fields: Option<&FieldPaths<'_>>,
) -> Result<(), AllocError> {
    out.token(Token::BeginObject)?;
    if let Some(path) = path {
        put_text(out, "path", path)?;
    }
    put_texts(alloc, out, metadata)?;
    put_numbers(alloc, out, metadata, sections)?;
    if let Some(fields) = fields {
        put_fields(alloc, out, fields)?;
    }
    out.token(Token::EndObject)
}

// The text of that object.
fn json_of(
    alloc: Global,
    path: Option<&str>,
    metadata: &Metadata,
    sections: &Sections,
    fields: Option<&FieldPaths<'_>>,
) -> Result<Vec<u8>, AllocError> {
    let mut out = Pretty::new(alloc);
    put_object(alloc, &mut out, path, metadata, sections, fields)?;
    let mut text = out.into_inner();
    text.push(b'\n')?;
    Ok(text)
}

// The text of what a file says of itself, with its path where several are shown, and with the fields of its records where
// they are asked for.
fn info_text(
    alloc: Global,
    path: Option<&str>,
    metadata: &Metadata,
    sections: &Sections,
    fields: Option<&FieldPaths<'_>>,
    json: bool,
) -> Result<Vec<u8>, AllocError> {
    if json {
        json_of(alloc, path, metadata, sections, fields)
    } else {
        Ok(text_of(alloc, path, metadata, sections, fields)?.into_bytes())
    }
}

/// What the file of these bytes says of itself, and the sizes of its sections: as lines, or as an object.
///
/// Fails as `Reader::from_source` does.
pub fn info(alloc: Global, bytes: &[u8], json: bool) -> Result<Vec<u8>, ProgramError> {
    let reader = Reader::from_source(alloc, bytes)?;
    let (metadata, sections) = (reader.metadata(), reader.sections());
    let text = info_text(alloc, None, metadata, &sections, None, json);
    drop(reader);
    Ok(text?)
}

// Says what is wrong with the fields, after what was written of them, and answers the status.
fn note_fields<O: Write, E: Write>(
    file: &str,
    fields: &FieldPaths<'_>,
    console: &mut Console<'_, O, E>,
) -> Result<u8, ProgramError> {
    let alloc = console.alloc;
    if fields.is_cut {
        console.flush()?;
        console.note(line_of(
            alloc,
            format!(in alloc; "mmdb: {file}: some paths are left out"),
        ));
    }
    let Some(error) = &fields.error else {
        return Ok(DONE);
    };
    let count = fields.unreadable;
    let text: String = format!(in alloc;
        "{count} of its records can't be read, the first: {error}"
    )?;
    console.flush()?;
    console.report(file, &text);
    Ok(FAILED)
}

// Writes what a database says of itself, and the fields of its records where they are asked for.
fn put_described<O: Write, E: Write>(
    database: &Database,
    path: Option<&str>,
    fields: Option<&FieldPaths<'_>>,
    json: bool,
    console: &mut Console<'_, O, E>,
) -> Result<(), ProgramError> {
    let (metadata, sections) = (database.metadata(), database.sections());
    let text = info_text(console.alloc, path, metadata, &sections, fields, json)?;
    console.put(text.as_slice())
}

// Writes what a database says of itself and the fields of its records, and answers the status.
fn put_with_fields<O: Write, E: Write>(
    database: &Database,
    file: &str,
    path: Option<&str>,
    json: bool,
    console: &mut Console<'_, O, E>,
) -> Result<u8, ProgramError> {
    if !can_be_walked(database, file, None, console)? {
        return Ok(FAILED);
    }
    let fields = fields_of(console.alloc, database)?;
    put_described(database, path, Some(&fields), json, console)?;
    note_fields(file, &fields, console)
}

// Writes what the database of a file says of itself, or reports why it can't be read, and answers the status.
fn describe_file<R: Files + Env, O: Write, E: Write>(
    rt: &R,
    file: &str,
    arguments: &InfoArguments<'_>,
    console: &mut Console<'_, O, E>,
) -> Result<u8, ProgramError> {
    let Some(database) = open_database(rt, file, console) else {
        return Ok(FAILED);
    };
    let is_alone = arguments.files.len() == 1;
    let path = if is_alone { None } else { Some(file) };
    let done = if arguments.fields {
        put_with_fields(&database, file, path, arguments.json, console)
    } else {
        match put_described(&database, path, None, arguments.json, console) {
            Ok(()) => Ok(DONE),
            Err(error) => Err(error),
        }
    };
    drop(database);
    done
}

/// Writes what each database says of itself, and the fields of its records where they are asked for, or reports why its file
/// can't be read, and answers the status. An `Err` where standard output can't be written, or out of memory.
pub fn describe<R: Files + Env, O: Write, E: Write>(
    rt: &R,
    arguments: &InfoArguments<'_>,
    console: &mut Console<'_, O, E>,
) -> Result<u8, ProgramError> {
    let mut status = DONE;
    for file in &arguments.files {
        if describe_file(rt, file, arguments, console)? == FAILED {
            status = FAILED;
        }
    }
    Ok(status)
}
