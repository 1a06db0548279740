//! The paths to the values of a database's records, with the types of the values, and how many records have them.
use crate::countable::Countable;
use crate::parts::{Part, part_at};
use mmdb_console::{path_with_index, path_with_key};
use mmdb_format::content::key_bytes_at;
use mmdb_format::header::{Header, MAX_LEVELS};
use mmdb_format::kind::Kind;
use mmdb_layout::{Database, Found, networks_in};
use mmdb_reader::MaxMindDbError;
use mmdb_value::Value;
use std::alloc::{AllocError, Global};
use std::collections::{BTreeMap, HashSet};
use std::mem;

/// How many paths are kept at most.
const MOST_PATHS: usize = 65_536;

/// What the types of values are called that hold others.
const MAP: &str = "map";

const ARRAY: &str = "array";

/// How many bytes a path has at most that is kept.
const MOST_BYTES: usize = 1_024;

/// How many records have values of one type at a path.
#[derive(Clone, Copy)]
struct TypeCount {
    name: &'static str,
    records: u64,
    /// The number of the walk that was counted last.
    last: u64,
}

/// A walk over the values of a record, or of several that share them.
#[derive(Clone, Copy)]
struct Walk {
    number: u64,
    records: u64,
    /// Whether each record has one value at the path that the walk has come to.
    is_alone: bool,
}

/// A path, the types of the values there, and the paths that go on from it. All items of an array have one path.
#[derive(Drop)]
struct PathNode<'a> {
    path: String,
    types: Vec<TypeCount>,
    members: BTreeMap<&'a str, usize>,
    items: Option<usize>,
    /// Maps and arrays that pointers lead to and that were counted here, by their offsets, and how many more records have each
    /// of them here as their one value.
    shared: BTreeMap<usize, u64>,
}

/// A path, the type of values there, and how many distinct records have such a value.
#[derive(Clone, Copy)]
pub(crate) struct Field<'f> {
    pub(crate) path: &'f str,
    pub(crate) type_name: &'static str,
    pub(crate) records: u64,
}

/// What is known of the values of the records that were met.
#[derive(Drop)]
pub(crate) struct FieldPaths<'a> {
    alloc: Global,
    section: &'a [u8],
    countable: Countable<'a>,
    /// The first is that of whole records.
    nodes: Vec<PathNode<'a>>,
    /// How many walks there were.
    walks: u64,
    /// The offsets of the records that were met.
    met: HashSet<usize>,
    /// The offset that was met last: neighbours often have one record.
    last: Option<usize>,
    /// How many distinct records were read.
    pub(crate) records: u64,
    /// Whether a path was left out.
    pub(crate) is_cut: bool,
    /// How many networks or distinct records can't be read.
    pub(crate) unreadable: u64,
    /// Why the first of them can't be.
    pub(crate) error: Option<MaxMindDbError>,
}

// The name of a value's type, as `build --type` takes it.
fn type_name(value: &Value<'_>) -> &'static str {
    match value {
        Value::String(_) => "string",
        Value::Bytes(_) => "bytes",
        Value::Bool(_) => "bool",
        Value::I32(_) => "int32",
        Value::U16(_) => "uint16",
        Value::U32(_) => "uint32",
        Value::U64(_) => "uint64",
        Value::U128(_) => "uint128",
        Value::Double(_) => "double",
        Value::Float(_) => "float",
        Value::Array(_) => ARRAY,
        Value::Map(_) => MAP,
    }
}

// The name of a type that a value without others has.
fn name_of(kind: Kind) -> &'static str {
    match kind {
        Kind::Text => "string",
        Kind::Bytes => "bytes",
        Kind::Bool => "bool",
        Kind::I32 => "int32",
        Kind::U16 => "uint16",
        Kind::U32 => "uint32",
        Kind::U64 => "uint64",
        Kind::U128 => "uint128",
        Kind::Double => "double",
        Kind::Float => "float",
        Kind::Array => ARRAY,
        Kind::Map => MAP,
        Kind::Unknown(_) => "unknown",
    }
}

impl Walk {
    // Below the items of an array.
    fn of_items(self, items: usize) -> Walk {
        Walk {
            is_alone: self.is_alone && items <= 1,
            ..self
        }
    }
}

impl<'a> PathNode<'a> {
    fn new(alloc: Global, path: String) -> PathNode<'a> {
        PathNode {
            path,
            types: Vec::new(alloc),
            members: BTreeMap::new(alloc),
            items: None,
            shared: BTreeMap::new(alloc),
        }
    }

    // Counts a value, once for each record of a walk.
    fn count(&mut self, name: &'static str, walk: Walk) -> Result<(), AllocError> {
        for known in self.types.iter_mut() {
            if known.name == name {
                if known.last != walk.number {
                    known.last = walk.number;
                    known.records = known.records.saturating_add(walk.records);
                }
                return Ok(());
            }
        }
        self.types.push(TypeCount {
            name,
            records: walk.records,
            last: walk.number,
        })?;
        Ok(())
    }

    // Whether the value at an offset was counted here, and has then the records of a walk more.
    fn was_counted(&mut self, offset: usize, walk: Walk) -> Result<bool, AllocError> {
        if let Some(records) = self.shared.get_mut(&offset) {
            *records = records.saturating_add(walk.records);
            return Ok(true);
        }
        self.shared.insert(offset, 0)?;
        Ok(false)
    }
}

impl<'a> FieldPaths<'a> {
    fn new(alloc: Global, section: &'a [u8]) -> Result<FieldPaths<'a>, AllocError> {
        let mut nodes = Vec::new(alloc);
        nodes.push(PathNode::new(alloc, String::new(alloc)))?;
        Ok(FieldPaths {
            alloc,
            section,
            countable: Countable::new(alloc, section)?,
            nodes,
            walks: 0,
            met: HashSet::new(alloc),
            last: None,
            records: 0,
            is_cut: false,
            unreadable: 0,
            error: None,
        })
    }

    // The node of a path that was not met before, unless it is left out.
    fn push_node(&mut self, path: Option<String>) -> Result<Option<usize>, AllocError> {
        let node = self.nodes.len();
        match path {
            Some(path) if node < MOST_PATHS && path.len() <= MOST_BYTES => {
                self.nodes.push(PathNode::new(self.alloc, path))?;
                Ok(Some(node))
            }
            _ => {
                self.is_cut = true;
                Ok(None)
            }
        }
    }

    // The path of a node.
    fn path_of(&self, node: usize) -> &str {
        match self.nodes.get(node) {
            Some(node) => node.path.as_str(),
            None => "",
        }
    }

    // The node of a member, unless it is left out.
    fn member_node(&mut self, node: usize, key: &'a str) -> Result<Option<usize>, AllocError> {
        if let Some(here) = self.nodes.get(node)
            && let Some(known) = here.members.get(&key)
        {
            return Ok(Some(*known));
        }
        let path = path_with_key(self.alloc, self.path_of(node), key)?;
        let made = self.push_node(path)?;
        if let (Some(here), Some(made)) = (self.nodes.get_mut(node), made) {
            here.members.insert(key, made)?;
        }
        Ok(made)
    }

    // The node of items, unless it is left out.
    fn items_node(&mut self, node: usize) -> Result<Option<usize>, AllocError> {
        if let Some(here) = self.nodes.get(node)
            && here.items.is_some()
        {
            return Ok(here.items);
        }
        let path = path_with_index(self.alloc, self.path_of(node), 0)?;
        let made = self.push_node(Some(path))?;
        if let Some(here) = self.nodes.get_mut(node) {
            here.items = made;
        }
        Ok(made)
    }

    // A walk over values that so many records have.
    fn next_walk(&mut self, records: u64) -> Walk {
        self.walks = self.walks.saturating_add(1);
        Walk {
            number: self.walks,
            records,
            is_alone: true,
        }
    }

    // Counts a value at a node, unless that is left out.
    fn count_at(
        &mut self,
        node: Option<usize>,
        name: &'static str,
        walk: Walk,
    ) -> Result<(), AllocError> {
        if let Some(node) = node
            && let Some(here) = self.nodes.get_mut(node)
        {
            here.count(name, walk)?;
        }
        Ok(())
    }

    // Counts a value of a record, and all that it holds.
    fn count_value(
        &mut self,
        node: Option<usize>,
        value: &Value<'a>,
        walk: Walk,
    ) -> Result<(), AllocError> {
        let Some(node) = node else {
            return Ok(());
        };
        self.count_at(Some(node), type_name(value), walk)?;
        match value {
            Value::Array(items) if !items.is_empty() => {
                let below = self.items_node(node)?;
                for item in items {
                    self.count_value(below, item, walk)?;
                }
                Ok(())
            }
            Value::Map(pairs) => {
                for pair in pairs {
                    let below = self.member_node(node, pair.0)?;
                    self.count_value(below, &pair.1, walk)?;
                }
                Ok(())
            }
            _ => Ok(()),
        }
    }

    // Counts the items of an array, and gives the offset behind them.
    #[cycle(walks)]
    fn walk_items(
        &mut self,
        node: Option<usize>,
        array: Header,
        walk: Walk,
        levels: usize,
    ) -> Result<Option<usize>, AllocError> {
        let below = match node {
            Some(node) if array.size > 0 => self.items_node(node)?,
            _ => None,
        };
        let walk = walk.of_items(array.size);
        let mut at = array.body;
        for _ in 0..array.size {
            match self.walk_part(below, at, walk, levels)? {
                Some(end) => at = end,
                None => return Ok(None),
            }
        }
        Ok(Some(at))
    }

    // The node of the member of a key, unless it is left out.
    fn node_of_key(
        &mut self,
        node: Option<usize>,
        key: &'a [u8],
    ) -> Result<Option<usize>, AllocError> {
        match (node, str::from_utf8(key)) {
            (Some(node), Ok(key)) => self.member_node(node, key),
            _ => Ok(None),
        }
    }

    // Counts the values of a map, and gives the offset behind them.
    #[cycle(walks)]
    fn walk_pairs(
        &mut self,
        node: Option<usize>,
        map: Header,
        walk: Walk,
        levels: usize,
    ) -> Result<Option<usize>, AllocError> {
        let mut at = map.body;
        for _ in 0..map.size {
            let Ok((key, behind)) = key_bytes_at(self.section, at) else {
                return Ok(None);
            };
            let below = self.node_of_key(node, key)?;
            match self.walk_part(below, behind, walk, levels)? {
                Some(end) => at = end,
                None => return Ok(None),
            }
        }
        Ok(Some(at))
    }

    // Whether a map or an array that a pointer leads to was counted at a node, where it is the one value of each record.
    fn was_counted(&mut self, node: usize, target: usize, walk: Walk) -> Result<bool, AllocError> {
        if !walk.is_alone {
            return Ok(false);
        }
        match (part_at(self.section, target), self.nodes.get_mut(node)) {
            (Some(Part::Map(_) | Part::Array(_)), Some(here)) => here.was_counted(target, walk),
            _ => Ok(false),
        }
    }

    // Counts what a pointer leads to, unless it was counted before at this node.
    #[cycle(walks)]
    fn walk_target(
        &mut self,
        node: Option<usize>,
        target: usize,
        walk: Walk,
        levels: usize,
    ) -> Result<(), AllocError> {
        let Some(node) = node else {
            return Ok(());
        };
        if !self.was_counted(node, target, walk)? {
            self.walk_part(Some(node), target, walk, levels)?;
        }
        Ok(())
    }

    // Counts what stands at an offset and all that it holds, and gives the offset behind it.
    #[cycle(walks)]
    fn walk_part(
        &mut self,
        node: Option<usize>,
        offset: usize,
        walk: Walk,
        levels: usize,
    ) -> Result<Option<usize>, AllocError> {
        if levels == 0 {
            return Ok(None);
        }
        match part_at(self.section, offset) {
            Some(Part::Pointer(pointer)) => {
                self.walk_target(node, pointer.target, walk, levels - 1)?;
                Ok(Some(pointer.next))
            }
            Some(Part::Map(map)) => {
                self.count_at(node, MAP, walk)?;
                self.walk_pairs(node, map, walk, levels - 1)
            }
            Some(Part::Array(array)) => {
                self.count_at(node, ARRAY, walk)?;
                self.walk_items(node, array, walk, levels - 1)
            }
            Some(Part::Scalar(scalar)) => {
                self.count_at(node, name_of(scalar.kind), walk)?;
                Ok(Some(scalar.end))
            }
            None => Ok(None),
        }
    }

    // The maps and arrays that more records have at a node than were counted.
    fn take_shared(&mut self, node: usize) -> BTreeMap<usize, u64> {
        let none = BTreeMap::new(self.alloc);
        match self.nodes.get_mut(node) {
            Some(here) => mem::replace(&mut here.shared, none),
            None => none,
        }
    }

    // Counts what records share, once for all of them. The nodes of what a node's values hold come after it.
    fn count_shared(&mut self) -> Result<(), AllocError> {
        for node in 0..self.nodes.len() {
            let shared = self.take_shared(node);
            for (offset, records) in &shared {
                if *records > 0 {
                    let walk = self.next_walk(*records);
                    self.walk_part(Some(node), *offset, walk, usize::from(MAX_LEVELS))?;
                }
            }
        }
        Ok(())
    }

    // Counts the record at an offset, part by part.
    fn count_parts(&mut self, offset: usize) -> Result<(), AllocError> {
        self.records = self.records.saturating_add(1);
        let walk = self.next_walk(1);
        self.walk_part(Some(0), offset, walk, usize::from(MAX_LEVELS))?;
        Ok(())
    }

    // Counts a record that was read whole.
    fn count_record(&mut self, record: &Value<'a>) -> Result<(), AllocError> {
        self.records = self.records.saturating_add(1);
        let walk = self.next_walk(1);
        self.count_value(Some(0), record, walk)
    }

    // Whether the record at an offset was not met before.
    fn is_new(&mut self, offset: usize) -> Result<bool, AllocError> {
        if self.last == Some(offset) {
            return Ok(false);
        }
        self.last = Some(offset);
        Ok(self.met.insert(offset)?)
    }

    // Notes what can't be read.
    fn note(&mut self, error: MaxMindDbError) -> Result<(), MaxMindDbError> {
        if matches!(error, MaxMindDbError::Memory) {
            return Err(error);
        }
        self.unreadable = self.unreadable.saturating_add(1);
        if self.error.is_none() {
            self.error = Some(error);
        }
        Ok(())
    }

    // Meets the record of a network, which was not met before.
    fn meet_new(&mut self, found: &Found<'a>, offset: usize) -> Result<(), MaxMindDbError> {
        if self.countable.has(offset)? {
            return Ok(self.count_parts(offset)?);
        }
        match found.decode(self.alloc) {
            Ok(Some(record)) => {
                let counted = self.count_record(&record);
                drop(record);
                Ok(counted?)
            }
            Ok(None) => Ok(()),
            Err(error) => self.note(error),
        }
    }

    // Meets the record of a network.
    fn meet(&mut self, found: &Found<'a>) -> Result<(), MaxMindDbError> {
        match found.offset() {
            Some(offset) if self.is_new(offset)? => self.meet_new(found, offset),
            _ => Ok(()),
        }
    }

    /// The fields, by their paths' texts.
    pub(crate) fn rows(&self) -> Result<Vec<Field<'_>>, AllocError> {
        let mut sorted = BTreeMap::new(self.alloc);
        for node in &self.nodes {
            sorted.insert(node.path.as_str(), node.types.as_slice())?;
        }
        let mut rows = Vec::new(self.alloc);
        for (path, types) in &sorted {
            for known in *types {
                rows.push(Field {
                    path: *path,
                    type_name: known.name,
                    records: known.records,
                })?;
            }
        }
        Ok(rows)
    }
}

/// The fields of a database's records, each distinct one counted once. What pointers share is passed once or twice, and not for
/// each record, but below the items of arrays. An `Err` is of memory.
pub(crate) fn fields_of(
    alloc: Global,
    database: &Database,
) -> Result<FieldPaths<'_>, MaxMindDbError> {
    let mut fields = FieldPaths::new(alloc, database.data_section())?;
    for item in networks_in(alloc, database, None)? {
        match item {
            Ok(found) => fields.meet(&found)?,
            Err(error) => fields.note(error)?,
        }
    }
    fields.count_shared()?;
    Ok(fields)
}
