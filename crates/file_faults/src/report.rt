//! Reports on refused documents: the place and the fault.
//!
//! A reader returns the first fault without its place. The report therefore reads prefixes of the
//! file: the shortest with the same fault ends with the faulty element. The entries of a key file
//! do not depend on each other, so it reads each of them alone. It then tries the keys of the
//! faulty element, and values of a key, until the fault is gone. No rule of a format is repeated
//! here.

use crate::front::{Front, Kept, Level};
use crate::refused::{Format, Refused, fault_of};
use itoa::Buffer;
use std::alloc::AllocError;
use toml::Table;

/// A report on a refused document, built to its end even if memory is refused.
#[derive(Drop)]
pub struct Report<'a> {
    refused: &'a Refused<'a>,
    text: Vec<u8>,
    is_out_of_memory: bool,
}

impl<'a> Report<'a> {
    /// Returns an empty report on a document.
    pub fn of(refused: &'a Refused<'a>) -> Report<'a> {
        Report {
            refused,
            text: Vec::new(refused.alloc),
            is_out_of_memory: false,
        }
    }

    /// Returns the format of the document.
    pub fn format(&self) -> Format {
        self.refused.format
    }

    /// Returns the text, or an error if memory was refused.
    pub fn end(self) -> Result<Vec<u8>, AllocError> {
        if self.is_out_of_memory {
            return Err(AllocError);
        }
        Ok(self.text)
    }

    /// Adds bytes to the text.
    pub fn add(&mut self, octets: &[u8]) {
        if self.text.extend_from_slice(octets).is_err() {
            self.is_out_of_memory = true;
        }
    }

    /// Adds a number in decimal.
    pub fn add_number(&mut self, number: u64) {
        let mut digits = Buffer::new();
        self.add(digits.format(number).as_bytes());
    }

    /// Adds the name and the number of an element, if the number is not 0.
    pub fn add_counted(&mut self, name: &[u8], count: usize) {
        if count > 0 {
            self.add(name);
            self.add_number(count as u64);
        }
    }

    /// Adds a colon and the words of the reader for the fault.
    pub fn add_words(&mut self) {
        self.add(b": ");
        match self.refused.fault.words(self.refused.alloc) {
            Ok(words) => self.add(words.as_bytes()),
            Err(AllocError) => self.is_out_of_memory = true,
        }
    }

    /// Returns a front of the document, or an empty document if memory is refused.
    pub fn document(&mut self, front: &Front<'_>) -> Table {
        match front.of(self.refused.alloc, self.refused.document) {
            Ok(document) => document,
            Err(AllocError) => {
                self.is_out_of_memory = true;
                Table::new(self.refused.alloc)
            }
        }
    }

    /// Returns true if the first fault of a front is that of the document.
    pub fn has_fault(&mut self, front: &Front<'_>) -> bool {
        let kept = self.document(front);
        let has_fault = self.is_fault_of(&kept);
        drop(kept);
        has_fault
    }

    fn is_fault_of(&mut self, document: &Table) -> bool {
        match fault_of(self.refused.alloc, document, self.refused.format) {
            Ok(fault) => fault == Some(self.refused.fault),
            Err(AllocError) => {
                self.is_out_of_memory = true;
                false
            }
        }
    }

    /// Returns true if a front has the fault with these keys of its last table.
    pub fn has_fault_with(&mut self, front: &Front<'_>, keys: &Kept<'_>) -> bool {
        self.has_fault(&front.with_keys(keys))
    }

    /// Returns true if a front has the fault without these keys of its last table.
    pub fn has_fault_without(&mut self, front: &Front<'_>, keys: &[&str]) -> bool {
        self.has_fault_with(front, &Kept::Without(keys))
    }

    /// Returns the front with only the first element of the root array that is refused alone, if
    /// any. Returns the empty front if the fault is at the root.
    ///
    /// Each element is checked once. The search does not find a fault between two elements.
    pub fn first_alone(&mut self, root: &'static str) -> Option<Front<'static>> {
        let empty = Front::of_root(root);
        if self.has_fault(&empty) {
            return Some(empty);
        }
        for index in 0..toml_schema::items(self.refused.document, root).len() {
            let alone = empty.with_only(index + 1);
            if self.has_fault(&alone) {
                return Some(alone);
            }
        }
        None
    }

    /// Returns the shortest front with the first fault, searched level by level.
    pub fn shortest(&mut self, root: &'static str, levels: &[Level]) -> Front<'static> {
        let mut front = Front::of_root(root);
        for level in levels {
            if self.has_fault(&front) {
                return front;
            }
            let needed = self.needed(&front.with_whole(*level), *level);
            front = front.with(*level, needed);
        }
        front
    }

    /// Returns the number of elements of a level that the fault needs.
    ///
    /// If `whole`, with everything from this level down, lacks the fault, it comes later and needs
    /// all elements.
    fn needed(&mut self, whole: &Front<'_>, level: Level) -> usize {
        if self.has_fault(whole) {
            self.least(whole, level)
        } else {
            usize::MAX
        }
    }

    /// Returns the least count at a level for which a front has the fault.
    ///
    /// The front must not have the fault with 0, and must have it with all elements.
    pub fn least(&mut self, front: &Front<'_>, level: Level) -> usize {
        let mut without = 0;
        let mut with = self.count(front, level);
        for _halving in 0..usize::BITS {
            let middle = usize::midpoint(without, with);
            if middle == without {
                return with;
            }
            if self.has_fault(&front.with(level, middle)) {
                with = middle;
            } else {
                without = middle;
            }
        }
        with
    }

    fn count(&mut self, front: &Front<'_>, level: Level) -> usize {
        let mut kept = self.document(&front.with(level, usize::MAX));
        let count = front.count(&mut kept, level);
        drop(kept);
        count
    }
}
