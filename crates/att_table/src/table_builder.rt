//! A table under construction.

ghost use Rattle.std.specs.Prelude.{◌≡◌, ◌+◌, ◌<◌, ◌≤◌, ◌∷◌, ◌++◌, [], length, IfOk, IsSome, OnOk, OnErr};
ghost use Rattle.att_attributes.specs.Attributes.{attribute_at, configurations_of};
ghost use Rattle.att_table.specs.Table.{Contents, value_octets, value_at, values_of, IsKept, IsNext};
ghost use Rattle.att_numbers.specs.declared.limit.TheConstants.{MAX_ATTRIBUTES, MAX_CONFIGURATIONS, MAX_VALUES_OCTETS};

use crate::table::Table;
use att_attributes::Attr;
use att_values::FlatStore;
use std::alloc::{AllocError, Global};
use std::marker::Model;

/// The attributes of a future table, by handles from 1 without gaps, and their values.
#[derive(Drop)]
pub struct TableBuilder {
    attributes: Vec<Attr>,
    values: FlatStore,
}

impl Model for TableBuilder {
    ghost Value = { Contents };

    ghost view = { λ table.
        record { attributes = table.attributes.items; values = values_of table.values } };

    ghost invariant = { λ table. IsKept table.attributes.items table.values };
}

impl TableBuilder {
    pub fn new(alloc: Global) -> Self
        ensures attributes { result.attributes ≡ [] }
        ensures values { result.values ≡ [] }
    {
        TableBuilder {
            attributes: Vec::new(alloc),
            values: FlatStore::new(alloc),
        }
    }

    /// Adds an attribute with its value at the next handle; on error nothing changes.
    pub fn push(&mut self, attr: Attr, value: &[u8]) -> Result<(), AllocError>
        requires room { length self.old.attributes < MAX_ATTRIBUTES }
        requires next { IsNext self.old.attributes attr value.now }
        ensures attributes { OnOk result
            (self.new.attributes ≡ self.old.attributes ++ attr ∷ []) }
        ensures values { OnOk result (self.new.values ≡ self.old.values ++ value.now ∷ []) }
        ensures err { OnErr result (self.new ≡ self.old) }
    {
        self.attributes.reserve(1)?;
        self.values.push(attr.largest, value)?;
        self.attributes.push_reserved(attr);
        Ok(())
    }

    pub fn len(&self) -> usize
        ensures { result ≡ length self.now.attributes }
    {
        self.attributes.len()
    }

    pub fn attributes(&self) -> &[Attr]
        ensures { result.now ≡ self.now.attributes }
    {
        &self.attributes
    }

    pub fn value(&self, handle: u16) -> &[u8]
        requires { IsSome (attribute_at self.now.attributes handle) }
        ensures { result.now ≡ value_at self.now.values handle }
    {
        self.values.value_at(handle)
    }

    /// Builds the table with its indexes: at most `MAX_CONFIGURATIONS` configurations and
    /// `MAX_VALUES_OCTETS` octets of values.
    pub fn finish(self, alloc: Global) -> Result<Table, AllocError>
        requires few { configurations_of self.attributes ≤ MAX_CONFIGURATIONS }
        requires counted { value_octets self.attributes ≤ MAX_VALUES_OCTETS }
        ensures { IfOk result (λ table. table ≡ self) }
    {
        let group_ends = att_attributes::group_ends(alloc, &self.attributes)?;
        let by_type = att_attributes::by_type(alloc, &self.attributes)?;
        let runs = att_attributes::runs_by_type(alloc, &self.attributes, &by_type)?;
        Ok(Table::from_parts(self.attributes, self.values, group_ends, by_type, runs))
    }
}
