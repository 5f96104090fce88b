//! Prefixes of files ("fronts").

use std::alloc::{AllocError, Global};
use toml::{Table, Value};

/// The keys that the last table of a front keeps.
#[derive(Clone, Copy)]
pub enum Kept<'a> {
    All,
    /// Only this one.
    Alone(&'a str),
    /// Only this one, with another value in TOML.
    AloneAs(&'a str, &'a str),
    /// All except these.
    Without(&'a [&'a str]),
    /// This one with another value in TOML, and all others except these.
    With(&'a str, &'a str, &'a [&'a str]),
}

/// An array of a file.
#[derive(Clone, Copy)]
pub enum Level {
    /// The services of a table file, or the entries of a key file.
    Elements,
    /// The includes of the last service.
    Includes,
    /// The characteristics of the last service.
    Characteristics,
    /// The descriptors of the last characteristic.
    Descriptors,
    /// The properties of the last element.
    Properties,
}

impl Level {
    fn key(self, root: &'static str) -> &'static str {
        match self {
            Level::Elements => root,
            Level::Includes => "include",
            Level::Characteristics => "characteristic",
            Level::Descriptors => "descriptor",
            Level::Properties => "properties",
        }
    }
}

/// The first elements of each array of a file, counted per `Level`.
///
/// An array below the root is that of the last element above it. The last element is the deepest
/// one.
#[derive(Clone, Copy)]
pub struct Front<'a> {
    pub root: &'static str,
    pub elements: usize,
    /// The front has only the last one of these elements.
    pub is_alone: bool,
    pub includes: usize,
    pub characteristics: usize,
    pub descriptors: usize,
    pub properties: usize,
    /// The keys of the last element.
    pub keys: &'a Kept<'a>,
    /// The key of a table in the last element, which is then the last table.
    pub inner: Option<&'a str>,
    /// The keys of that table.
    pub inner_keys: &'a Kept<'a>,
}

impl<'a> Front<'a> {
    /// Returns the front with this root array and no elements.
    pub fn of_root(root: &'static str) -> Front<'static> {
        Front {
            root,
            elements: 0,
            is_alone: false,
            includes: 0,
            characteristics: 0,
            descriptors: 0,
            properties: usize::MAX,
            keys: &Kept::All,
            inner: None,
            inner_keys: &Kept::All,
        }
    }

    /// Returns the front with another count at a level.
    pub fn with(self, level: Level, count: usize) -> Front<'a> {
        let mut front = self;
        match level {
            Level::Elements => front.elements = count,
            Level::Includes => front.includes = count,
            Level::Characteristics => front.characteristics = count,
            Level::Descriptors => front.descriptors = count,
            Level::Properties => front.properties = count,
        }
        front
    }

    /// Returns the front with only one element of the root array, counted from 1.
    pub fn with_only(self, number: usize) -> Front<'a> {
        Front {
            elements: number,
            is_alone: true,
            ..self
        }
    }

    /// Returns the front with all elements of a level and everything in the last one.
    pub fn with_whole(self, level: Level) -> Front<'a> {
        let mut front = self.with(level, usize::MAX);
        match level {
            Level::Elements => {
                front.includes = usize::MAX;
                front.characteristics = usize::MAX;
                front.descriptors = usize::MAX;
            }
            Level::Characteristics => front.descriptors = usize::MAX,
            Level::Includes | Level::Descriptors | Level::Properties => {}
        }
        front
    }

    /// Returns the front with other keys of its last table.
    pub fn with_keys<'k>(&'k self, keys: &'k Kept<'k>) -> Front<'k> {
        let (keys, inner_keys) = match self.inner {
            Some(_) => (self.keys, keys),
            None => (keys, self.inner_keys),
        };
        Front {
            keys,
            inner_keys,
            ..*self
        }
    }

    /// Returns the front whose last table is at a key of its last element.
    pub fn with_inner<'k>(&'k self, inner: &'k str) -> Front<'k> {
        Front {
            inner: Some(inner),
            inner_keys: &Kept::All,
            ..*self
        }
    }

    /// Returns a copy of a document that is cut to this front.
    pub fn of(&self, alloc: Global, document: &Table) -> Result<Table, AllocError> {
        let mut kept = self.root_of(alloc, document)?;
        self.cut(&mut kept);
        if let Some(element) = self.last_element(&mut kept) {
            cut_array(element, "properties", self.properties);
            keep_keys(alloc, element, self.keys)?;
        }
        if self.inner.is_some() {
            if let Some(table) = self.last_table(&mut kept) {
                keep_keys(alloc, table, self.inner_keys)?;
            }
        }
        Ok(kept)
    }

    /// Returns a copy of a document without the elements that this front leaves out at its root.
    ///
    /// No format has another key there than that of its array, so the content of another value
    /// does not matter.
    fn root_of(&self, alloc: Global, document: &Table) -> Result<Table, AllocError> {
        let mut copy = Table::new(alloc);
        for (name, value) in document.iter() {
            let key = name.as_str();
            let kept = match value.as_array() {
                Some(elements) if key == self.root => Value::Array(self.array_of(alloc, elements)?),
                _ => without_content(alloc, value)?,
            };
            insert(&mut copy, String::from_str(alloc, key)?, kept)?;
        }
        Ok(copy)
    }

    fn array_of(&self, alloc: Global, elements: &[Value]) -> Result<Vec<Value>, AllocError> {
        let left_out = if self.is_alone {
            self.elements.saturating_sub(1)
        } else {
            0
        };
        let mut copy = Vec::new(alloc);
        for element in elements.iter().take(self.elements).skip(left_out) {
            copy.push(element.clone()?)?;
        }
        Ok(copy)
    }

    /// Returns the number of elements at a level, in the last element that has any.
    ///
    /// `document` is cut to this front.
    pub fn count(&self, document: &mut Table, level: Level) -> usize {
        match self.with(level, 0).last_element(document) {
            Some(element) => toml_schema::items(element, level.key(self.root)).len(),
            None => 0,
        }
    }

    fn cut(&self, document: &mut Table) {
        cut_array(document, self.root, self.elements);
        let Some(service) = last_table(document, self.root) else {
            return;
        };
        cut_array(service, "include", self.includes);
        cut_array(service, "characteristic", self.characteristics);
        let Some(characteristic) = last_table(service, "characteristic") else {
            return;
        };
        cut_array(characteristic, "descriptor", self.descriptors);
    }

    /// Returns the last element of a document cut to this front, if it is a table.
    pub fn last_element<'t>(&self, document: &'t mut Table) -> Option<&'t mut Table> {
        if self.elements == 0 {
            return Some(document);
        }
        let service = last_table(document, self.root)?;
        if self.characteristics == 0 {
            return Some(service);
        }
        let characteristic = last_table(service, "characteristic")?;
        if self.descriptors == 0 {
            return Some(characteristic);
        }
        last_table(characteristic, "descriptor")
    }

    /// Returns the table at `inner` in the last element, or else that element.
    pub fn last_table<'t>(&self, document: &'t mut Table) -> Option<&'t mut Table> {
        let element = self.last_element(document)?;
        match self.inner {
            Some(key) => element.get_mut(key)?.as_table_mut(),
            None => Some(element),
        }
    }
}

/// Returns a copy of a value, but an empty array or table if it is one.
fn without_content(alloc: Global, value: &Value) -> Result<Value, AllocError> {
    match value {
        Value::Array(_) => Ok(Value::Array(Vec::new(alloc))),
        Value::Table(_) => Ok(Value::Table(Table::new(alloc))),
        _ => value.clone(),
    }
}

fn cut_array(table: &mut Table, key: &str, count: usize) {
    if let Some(array) = array_at(table, key) {
        array.truncate(count);
    }
}

fn last_table<'t>(table: &'t mut Table, key: &str) -> Option<&'t mut Table> {
    array_at(table, key)?.last_mut()?.as_table_mut()
}

fn array_at<'t>(table: &'t mut Table, key: &str) -> Option<&'t mut Vec<Value>> {
    table.get_mut(key)?.as_array_mut()
}

fn keep_keys(alloc: Global, table: &mut Table, keys: &Kept<'_>) -> Result<(), AllocError> {
    match *keys {
        Kept::All => Ok(()),
        Kept::Alone(key) => keep_alone(alloc, table, key),
        Kept::AloneAs(key, value) => {
            table.clear();
            put(alloc, table, key, value)
        }
        Kept::Without(left_out) => {
            remove_all(table, left_out);
            Ok(())
        }
        Kept::With(key, value, left_out) => {
            remove_all(table, left_out);
            put(alloc, table, key, value)
        }
    }
}

/// Removes all other keys.
fn keep_alone(alloc: Global, table: &mut Table, key: &str) -> Result<(), AllocError> {
    let name = String::from_str(alloc, key)?;
    let value = table.remove(key);
    table.clear();
    match value {
        Some(value) => insert(table, name, value),
        None => Ok(()),
    }
}

fn put(alloc: Global, table: &mut Table, key: &str, value: &str) -> Result<(), AllocError> {
    let name = String::from_str(alloc, key)?;
    match Value::from_str(alloc, value) {
        Ok(value) => insert(table, name, value),
        Err(_) => Err(AllocError),
    }
}

fn insert(table: &mut Table, name: String, value: Value) -> Result<(), AllocError> {
    table.insert(name, value)?;
    Ok(())
}

fn remove_all(table: &mut Table, keys: &[&str]) {
    for key in keys {
        table.remove(*key);
    }
}
