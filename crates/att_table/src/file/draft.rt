//! A table under construction from a file, within its limits.

ghost use Rattle.std.specs.Prelude.{◌≡◌, ◌+◌, ◌≤◌, ◌<◌, [], length, OnOk, IfOk, IfSome, IsSome};
ghost use Rattle.octet_io.specs.Memory.{Leaves};
ghost use Rattle.att_attributes.specs.declared.attr.Role.TheVariants.{Declaration};
ghost use Rattle.att_attributes.specs.Attributes.{attribute_at, is_configuration};
ghost use Rattle.att_table.specs.declared.table_fault.TableFault.TheVariants.{OutOfMemory};
ghost use Rattle.att_table.specs.file.Placed.{next_handle, add, declare};
ghost use Rattle.att_table.specs.file.Service.{earlier_service};
ghost use Rattle.att_table.specs.Table.{counted_octets, last_role, IsNext};
ghost use Rattle.att_numbers.specs.declared.limit.TheConstants.{MAX_DECLARATION};

use crate::file::include;
use crate::file::include::ServiceHandles;
use crate::table::Table;
use crate::table_builder::TableBuilder;
use crate::table_fault::TableFault;
use att_attributes::{Attr, Role};
use att_numbers::limit::{MAX_ATTRIBUTES, MAX_CONFIGURATIONS, MAX_VALUES_OCTETS};
use att_policy::{Guard, Need, Properties};
use std::alloc::{AllocError, Global};
use std::marker::Model;

/// A growing table with the counts for its limits.
#[derive(Drop)]
pub struct Draft {
    table: TableBuilder,
    configurations: usize,
    octets: usize,
}

impl Model for Draft {
    ghost use Rattle.att_table.specs.file.Draft.{IsCounted};
    ghost use Rattle.att_table.specs.Table.{Contents};

    ghost Value = { Contents };

    ghost view = { λ draft. draft.table };

    ghost invariant = { λ draft. IsCounted draft.table.attributes draft.configurations
        draft.octets };
}

impl Draft {
    pub fn new(alloc: Global) -> Self
        ensures attributes { result.attributes ≡ [] }
        ensures values { result.values ≡ [] }
    {
        Draft {
            table: TableBuilder::new(alloc),
            configurations: 0,
            octets: 0,
        }
    }

    /// Builds the table.
    pub fn finish(self, alloc: Global) -> Result<Table, AllocError>
        ensures { IfOk result (λ table. table ≡ self) }
    {
        self.table.finish(alloc)
    }

    pub fn table(&self) -> &TableBuilder
        ensures { result.now ≡ self.now }
    {
        &self.table
    }

    #[tactic(auto, using(crate::proofs::Services::earlier_exists))]
    pub fn earlier_service(&self, position: i64) -> Option<ServiceHandles>
        ensures service { result ≡ earlier_service self.now.attributes position }
        ensures exists { IfSome result
            (λ service. IsSome (attribute_at self.now.attributes service.first)) }
    {
        include::earlier_service(self.table.attributes(), position)
    }

    pub fn next_handle(&self) -> u16
        ensures next { result ≡ next_handle self.now }
        ensures within { result ≤ MAX_ATTRIBUTES + 1 }
    {
        self.table.len() as u16 + 1
    }

    /// Adds an attribute with its value at the next handle. `TooMany`: past a limit.
    pub fn add(&mut self, attr: Attr, value: &[u8]) -> Result<(), TableFault>
        requires { IsNext self.old.attributes attr value.now }
        ensures added { Leaves OutOfMemory (add self.old attr value.now) result self.new }
        ensures next { OnOk result (next_handle self.new ≡ next_handle self.old + 1) }
        ensures last { OnOk result (last_role Declaration self.new.attributes ≡ attr.role) }
    {
        let configurations = self.configurations + usize::from(is_configuration(attr.role));
        let octets = self.octets + usize::from(counted_octets(attr.role, attr.largest));
        if self.table.len() == MAX_ATTRIBUTES
            || configurations > MAX_CONFIGURATIONS
            || octets > MAX_VALUES_OCTETS
        {
            return Err(TableFault::TooMany);
        }
        self.table.push(attr, value)?;
        self.configurations = configurations;
        self.octets = octets;
        Ok(())
    }

    /// Adds a declaration that every client may read.
    pub fn declare(&mut self, kind: u128, value: &[u8]) -> Result<(), TableFault>
        requires { length value.now ≤ MAX_DECLARATION }
        ensures declared { Leaves OutOfMemory (declare self.old kind value.now) result self.new }
        ensures next { OnOk result (next_handle self.new ≡ next_handle self.old + 1) }
    {
        let attr = Attr {
            handle: self.next_handle(),
            kind,
            largest: value.len() as u16,
            fixed: true,
            role: Role::Declaration,
            guard: Guard {
                properties: Properties::READ,
                read: Need::NONE,
                write: Need::NONE,
            },
        };
        self.add(attr, value)
    }
}

fn is_configuration(role: Role) -> bool
    ensures { result ≡ is_configuration role }
{
    role == Role::Configuration
}

fn counted_octets(role: Role, largest: u16) -> u16
    ensures { result ≡ counted_octets role largest }
{
    match role {
        Role::Value | Role::Descriptor => largest,
        Role::Declaration | Role::Configuration => 0,
    }
}
