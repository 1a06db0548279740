//! The types of the values at paths.
use crate::json_lines::RECORD;
use mmdb_console::{Similar, path_with_index, path_with_key};
use mmdb_format::kind::Kind;
use mmdb_reader::PathElement;
use mmdb_value::Value;
use std::alloc::{AllocError, Global};
use std::cell::Cell;
use std::collections::BTreeMap;

/// How many paths are kept at most where they are bounded.
const MOST_PATHS: usize = 65_536;

/// How many bytes a path has at most that is shown.
const MOST_BYTES: usize = 1_024;

/// How many paths are shown.
const MOST_SHOWN: usize = 10;

/// What is known of the values at a path: their types, the first that was met first, and the paths that go on from it. All
/// items of an array have one path.
#[derive(Drop)]
pub(crate) struct TypeNode {
    /// The path as it is shown, none where it is too long for that, or no text reads so.
    path: Option<String>,
    pub(crate) kinds: Vec<Kind>,
    members: BTreeMap<String, usize>,
    items: Option<usize>,
    /// The key of a member, and the node that it is a member of.
    key: String,
    parent: Option<usize>,
    /// The first of its members, and the member behind it, in the record before.
    first: Option<usize>,
    next: Option<usize>,
    /// Whether a row named the path, or had a value there.
    is_met: Cell<bool>,
    /// Whether the types are those of values, and not named.
    is_learned: bool,
}

impl TypeNode {
    fn new(alloc: Global, path: Option<String>) -> TypeNode {
        TypeNode {
            path,
            kinds: Vec::new(alloc),
            members: BTreeMap::new(alloc),
            items: None,
            key: String::new(alloc),
            parent: None,
            first: None,
            next: None,
            is_met: Cell::new(false),
            is_learned: false,
        }
    }

    /// The path as it is shown, that of a whole record as `record`.
    pub(crate) fn shown_path(&self) -> &str {
        match &self.path {
            Some(path) if !path.is_empty() => path.as_str(),
            _ => RECORD,
        }
    }

    // Whether a value that was learned, and holds no others, is met by no row.
    fn is_unmet(&self) -> bool {
        self.is_learned && !self.is_met.get() && self.kinds.iter().any(is_scalar)
    }
}

/// The first paths of some, of those that can be shown, and how many there are in all.
#[derive(Drop)]
pub(crate) struct FirstPaths<'t> {
    pub(crate) shown: Vec<&'t TypeNode>,
    pub(crate) count: usize,
}

impl<'t> FirstPaths<'t> {
    fn new(alloc: Global) -> FirstPaths<'t> {
        FirstPaths {
            shown: Vec::new(alloc),
            count: 0,
        }
    }

    // Adds a path.
    fn add(&mut self, node: &'t TypeNode) -> Result<(), AllocError> {
        self.count = self.count.saturating_add(1);
        if node.path.is_some() && self.shown.len() < MOST_SHOWN {
            self.shown.push(node)?;
        }
        Ok(())
    }

    /// How many there are, where some of them are not shown.
    pub(crate) fn count_of_more(&self) -> Option<usize> {
        if self.count > self.shown.len() {
            Some(self.count)
        } else {
            None
        }
    }
}

/// The types of the values at paths.
#[derive(Drop)]
pub struct Types {
    // The first is the whole record's.
    nodes: Vec<TypeNode>,
    /// Whether so many paths are kept at most as one reads.
    is_bounded: bool,
}

// Whether a type is one of values that hold no others.
fn is_scalar(kind: &Kind) -> bool {
    !matches!(*kind, Kind::Map | Kind::Array)
}

// A path where it can be shown.
fn short(path: Option<String>) -> Option<String> {
    match path {
        Some(path) if path.len() <= MOST_BYTES => Some(path),
        _ => None,
    }
}

// The type of a value.
fn kind_of(value: &Value<'_>) -> Kind {
    match value {
        Value::String(_) => Kind::Text,
        Value::Bytes(_) => Kind::Bytes,
        Value::Bool(_) => Kind::Bool,
        Value::I32(_) => Kind::I32,
        Value::U16(_) => Kind::U16,
        Value::U32(_) => Kind::U32,
        Value::U64(_) => Kind::U64,
        Value::U128(_) => Kind::U128,
        Value::Double(_) => Kind::Double,
        Value::Float(_) => Kind::Float,
        Value::Array(_) => Kind::Array,
        Value::Map(_) => Kind::Map,
    }
}

// Whether JSON shows values of both types alike.
fn look_alike(one: Kind, other: Kind) -> bool {
    let is_text = |kind: Kind| matches!(kind, Kind::Text | Kind::Bytes);
    let is_number = |kind: Kind| !matches!(
        kind,
        Kind::Bool | Kind::Map | Kind::Array | Kind::Text | Kind::Bytes
    );
    (is_text(one) && is_text(other)) || (is_number(one) && is_number(other))
}

// Whether JSON shows alike what the first of some types has, and what another one of them has.
fn are_several(kinds: &[Kind]) -> bool {
    for (place, kind) in kinds.iter().enumerate() {
        if kinds
            .iter()
            .take(place)
            .any(|other| look_alike(*other, *kind))
        {
            return true;
        }
    }
    false
}

impl Types {
    /// No types at all.
    pub fn new(alloc: Global) -> Types {
        Types {
            nodes: Vec::new(alloc),
            is_bounded: false,
        }
    }

    /// No types at all, of which so many paths are kept as one reads, and those that can be shown.
    pub(crate) fn bounded(alloc: Global) -> Types {
        Types {
            nodes: Vec::new(alloc),
            is_bounded: true,
        }
    }

    // A new node, unless it is left out.
    fn push_node(
        &mut self,
        alloc: Global,
        path: Option<String>,
    ) -> Result<Option<usize>, AllocError> {
        let place = self.nodes.len();
        if self.is_bounded && (place >= MOST_PATHS || path.is_none()) {
            return Ok(None);
        }
        self.nodes.push(TypeNode::new(alloc, path))?;
        Ok(Some(place))
    }

    // The node of the whole record.
    fn root(&mut self, alloc: Global) -> Result<usize, AllocError> {
        if self.nodes.is_empty() {
            self.push_node(alloc, Some(String::new(alloc)))?;
        }
        Ok(0)
    }

    // The path of a node, where it can be shown.
    fn path(&self, node: usize) -> Option<&str> {
        match &self.nodes.get(node)?.path {
            Some(path) => Some(path.as_str()),
            None => None,
        }
    }

    // The path of a member, where it can be shown.
    fn member_path(
        &self,
        alloc: Global,
        node: usize,
        key: &str,
    ) -> Result<Option<String>, AllocError> {
        match self.path(node) {
            Some(path) if key.len() <= MOST_BYTES => Ok(short(path_with_key(alloc, path, key)?)),
            _ => Ok(None),
        }
    }

    // The path of items, where it can be shown.
    fn items_path(&self, alloc: Global, node: usize) -> Result<Option<String>, AllocError> {
        match self.path(node) {
            Some(path) => Ok(short(Some(path_with_index(alloc, path, 0)?))),
            None => Ok(None),
        }
    }

    // The node of a member, which is made where it is not there, unless it is left out.
    fn member_node(
        &mut self,
        alloc: Global,
        node: usize,
        key: &str,
    ) -> Result<Option<usize>, AllocError> {
        if let Some(place) = self.member(Some(node), key) {
            return Ok(Some(place));
        }
        let path = self.member_path(alloc, node, key)?;
        let Some(place) = self.push_node(alloc, path)? else {
            return Ok(None);
        };
        let own = String::from_str(alloc, key)?;
        if let Some(made) = self.nodes.get_mut(place) {
            made.key = own;
            made.parent = Some(node);
        }
        if let Some(parent) = self.nodes.get_mut(node) {
            parent.members.insert(String::from_str(alloc, key)?, place)?;
        }
        Ok(Some(place))
    }

    // Whether a node is the member with this key of another one.
    fn is_member(&self, place: usize, node: usize, key: &str) -> bool {
        match self.nodes.get(place) {
            Some(here) => here.parent == Some(node) && here.key.as_str() == key,
            None => false,
        }
    }

    // The same node as that of a member, which is mostly the one that was in its place in the record before.
    fn member_node_at(
        &mut self,
        alloc: Global,
        node: usize,
        before: Option<usize>,
        key: &str,
    ) -> Result<Option<usize>, AllocError> {
        let guess = match before {
            Some(before) => self.nodes.get(before).and_then(|here| here.next),
            None => self.nodes.get(node).and_then(|here| here.first),
        };
        if let Some(guess) = guess {
            if self.is_member(guess, node, key) {
                return Ok(Some(guess));
            }
        }
        let place = self.member_node(alloc, node, key)?;
        match before {
            Some(before) => {
                if let Some(here) = self.nodes.get_mut(before) {
                    here.next = place;
                }
            }
            None => {
                if let Some(here) = self.nodes.get_mut(node) {
                    here.first = place;
                }
            }
        }
        Ok(place)
    }

    // The node of items, which is made where it is not there, unless it is left out.
    fn items_node(&mut self, alloc: Global, node: usize) -> Result<Option<usize>, AllocError> {
        if let Some(place) = self.items(Some(node)) {
            return Ok(Some(place));
        }
        let path = self.items_path(alloc, node)?;
        let made = self.push_node(alloc, path)?;
        if let Some(parent) = self.nodes.get_mut(node) {
            parent.items = made;
        }
        Ok(made)
    }

    // Notes a type.
    fn add_kind(&mut self, node: usize, kind: Kind) -> Result<(), AllocError> {
        if let Some(here) = self.nodes.get_mut(node) {
            here.is_learned = true;
            if !here.kinds.contains(&kind) {
                here.kinds.push(kind)?;
            }
        }
        Ok(())
    }

    // Learns the types of a value and of all that it holds.
    fn learn_at(
        &mut self,
        alloc: Global,
        node: Option<usize>,
        value: &Value<'_>,
    ) -> Result<(), AllocError> {
        let Some(node) = node else {
            return Ok(());
        };
        self.add_kind(node, kind_of(value))?;
        match value {
            Value::Array(items) if !items.is_empty() => {
                let below = self.items_node(alloc, node)?;
                for item in items {
                    self.learn_at(alloc, below, item)?;
                }
                Ok(())
            }
            Value::Map(pairs) => {
                let mut before = None;
                for pair in pairs {
                    let below = self.member_node_at(alloc, node, before, pair.0)?;
                    self.learn_at(alloc, below, &pair.1)?;
                    before = below;
                }
                Ok(())
            }
            _ => Ok(()),
        }
    }

    /// Learns the types of a record and of all that it holds.
    pub fn learn(&mut self, alloc: Global, record: &Value<'_>) -> Result<(), AllocError> {
        let root = self.root(alloc)?;
        self.learn_at(alloc, Some(root), record)
    }

    /// Sets the type of the values at a path, whatever it was. Any index stands for all items.
    pub fn set(
        &mut self,
        alloc: Global,
        path: &[PathElement<'_>],
        kind: Kind,
    ) -> Result<(), AllocError> {
        let mut node = self.root(alloc)?;
        for step in path {
            let below = match step {
                PathElement::Key(key) => self.member_node(alloc, node, *key)?,
                _ => self.items_node(alloc, node)?,
            };
            let Some(below) = below else {
                return Ok(());
            };
            node = below;
        }
        if let Some(here) = self.nodes.get_mut(node) {
            here.is_learned = false;
            here.kinds.clear();
            here.kinds.push(kind)?;
        }
        Ok(())
    }

    /// At how many paths JSON does not show which of several types a value has.
    pub fn several(&self) -> usize {
        self.nodes
            .iter()
            .filter(|node| are_several(&node.kinds))
            .count()
    }

    /// The first paths at which values have several types.
    pub(crate) fn first_several(&self, alloc: Global) -> Result<FirstPaths<'_>, AllocError> {
        let mut first = FirstPaths::new(alloc);
        for node in &self.nodes {
            if node.kinds.len() > 1 {
                first.add(node)?;
            }
        }
        Ok(first)
    }

    /// The first paths of values that were learned, and hold no others, which no row met.
    pub(crate) fn first_unmet(&self, alloc: Global) -> Result<FirstPaths<'_>, AllocError> {
        let mut first = FirstPaths::new(alloc);
        for node in &self.nodes {
            if node.is_unmet() {
                first.add(node)?;
            }
        }
        Ok(first)
    }

    /// Offers the paths that can be shown.
    pub(crate) fn offer(&self, similar: &mut Similar<'_>) -> Result<(), AllocError> {
        for node in &self.nodes {
            if let Some(path) = &node.path {
                similar.offer(path.as_str())?;
            }
        }
        Ok(())
    }

    /// The node of the whole record, if something is known of it.
    pub(crate) fn whole(&self) -> Option<usize> {
        if self.nodes.is_empty() { None } else { Some(0) }
    }

    /// The node of the member with this key, if something is known of it.
    pub(crate) fn member(&self, node: Option<usize>, key: &str) -> Option<usize> {
        self.nodes.get(node?)?.members.get(key).copied()
    }

    /// The node of the items, if something is known of them.
    pub(crate) fn items(&self, node: Option<usize>) -> Option<usize> {
        self.nodes.get(node?)?.items
    }

    /// The node at a path, if something is known of it.
    pub(crate) fn find(&self, path: &[PathElement<'_>]) -> Option<usize> {
        let mut node = self.whole();
        for step in path {
            node = match step {
                PathElement::Key(key) => self.member(node, *key),
                _ => self.items(node),
            };
        }
        node
    }

    /// Notes that a row named the path of a node.
    pub(crate) fn meet(&self, node: Option<usize>) {
        if let Some(node) = node {
            if let Some(here) = self.nodes.get(node) {
                here.is_met.set(true);
            }
        }
    }

    /// Whether a row named a path of which something is known, or had a value there.
    pub(crate) fn is_met(&self, path: &[PathElement<'_>]) -> bool {
        match self.find(path) {
            Some(node) => match self.nodes.get(node) {
                Some(here) => here.is_met.get(),
                None => false,
            },
            None => false,
        }
    }

    /// The types of the values at a node, none where nothing is known. A value there is met.
    pub(crate) fn kinds(&self, node: Option<usize>) -> &[Kind] {
        match node {
            Some(node) => match self.nodes.get(node) {
                Some(here) => {
                    here.is_met.set(true);
                    &here.kinds
                }
                None => &[],
            },
            None => &[],
        }
    }
}
