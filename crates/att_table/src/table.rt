ghost use Rattle.std.specs.Prelude.{◌≡◌, ◌+◌, ◌<◌, ◌≤◌, [], true, length, sum_by, IfSome, IsSome};
ghost use Rattle.std.specs.Option.{option_copied, option_map};
ghost use Rattle.att_attributes.specs.declared.attr.Attr.{Attr};
ghost use Rattle.att_values.specs.Cell.{value_with_part};
ghost use Rattle.att_attributes.specs.Attributes.{attribute_at, attributes_in, configuration_bits_at, configurations_of, is_fixed_at, is_value_at};
ghost use Rattle.att_attributes.specs.Group.{group_ends_of, group_end_at};
ghost use Rattle.att_attributes.specs.OfType.{handles_of_type, handles_by_type, runs_by_type};
ghost use Rattle.att_table.specs.Changer.{changer_of, IsOfAChanger};
ghost use Rattle.att_table.specs.ConfigRow.{is_supported, HasRowRoom};
ghost use Rattle.att_table.specs.Facts.{IsTable};
ghost use Rattle.att_table.specs.Find.{value_found, value_where};
ghost use Rattle.att_table.specs.Table.{Contents, value_octets, value_at, room_at, with_value, values_of, IsKept, IsWhole};
ghost use Rattle.att_numbers.specs.declared.limit.TheConstants.{MAX_ATTRIBUTES, MAX_CONFIGURATIONS, MAX_TABLE_OCTETS, MAX_VALUES_OCTETS};

use crate::{changer, find};
use att_attributes::{Attr, Role, Run, Steps};
use att_values::FlatStore;
use std::marker::Model;

/// The attributes of a server, by handles from 1 without gaps, and their values.
#[derive(Drop)]
pub struct Table {
    attributes: Vec<Attr>,
    values: FlatStore,
    group_ends: Vec<u16>,
    by_type: Vec<u16>,
    runs: Vec<Run>,
}

impl Model for Table {
    ghost Value = { Contents };

    ghost view = { λ table.
        record { attributes = table.attributes.items; values = values_of table.values } };

    ghost invariant = { λ table. IsWhole table.attributes.items table.values table.group_ends.items
        table.by_type.items table.runs.items };
}

impl Table {
    /// Builds a table from its attributes, values and indexes.
    pub(crate) fn from_parts(
        attributes: Vec<Attr>,
        values: FlatStore,
        group_ends: Vec<u16>,
        by_type: Vec<u16>,
        runs: Vec<Run>,
    ) -> Self
        requires kept { IsKept attributes.items values }
        requires few { configurations_of attributes.items ≤ MAX_CONFIGURATIONS }
        requires counted { value_octets attributes.items ≤ MAX_VALUES_OCTETS }
        requires ends { group_ends.items ≡ group_ends_of attributes.items }
        requires types { by_type.items ≡ handles_by_type attributes.items }
        requires runs { runs.items ≡ runs_by_type attributes.items }
        ensures attributes { result.attributes ≡ attributes.items }
        ensures values { result.values ≡ values_of values }
    {
        Table {
            attributes,
            values,
            group_ends,
            by_type,
            runs,
        }
    }

    /// Returns the number of attributes. Its contract states the facts of every table.
    #[tactic(auto, using(crate::proofs::Facts::facts_of))]
    pub fn len(&self) -> usize
        ensures count { result ≡ length self.now.attributes }
        ensures table { IsTable self.now }
    {
        self.attributes.len()
    }

    /// Returns the attribute at a handle.
    #[tactic(auto, using(crate::proofs::Configurations::room_in_row))]
    pub fn get(&self, handle: u16) -> Option<&Attr>
        ensures attribute { option_copied result ≡ attribute_at self.now.attributes handle }
        // It has a value, and if it is a configuration, each row has space for it.
        ensures value { IfSome result (λ attr. handle ≤ length self.now.values) }
        ensures used { IfSome result (λ attr. 0 < handle) }
        ensures most { IfSome result (λ attr. handle ≤ MAX_ATTRIBUTES) }
        ensures row { HasRowRoom self.now.attributes handle }
    {
        // Handle 0 wraps to a place past the end.
        self.attributes.get(usize::from(handle).wrapping_sub(1))
    }

    /// Returns the attributes with handles from `first` to `last`.
    pub fn in_range(&self, first: u16, last: u16) -> &[Attr]
        ensures { result.now ≡ attributes_in self.now.attributes first last }
    {
        let end = usize::from(last).min(self.attributes.len());
        self.attributes[..end]
            .get(usize::from(first).saturating_sub(1)..)
            .unwrap_or(&[])
    }

    /// Returns the value at a handle; empty for a CCCD.
    pub fn value(&self, handle: u16) -> &[u8]
        requires { IsSome (attribute_at self.now.attributes handle) }
        ensures { result.now ≡ value_at self.now.values handle }
    {
        self.values.value_at(handle)
    }

    /// Returns the value at a handle, if there is one; empty for a CCCD.
    pub fn value_of(&self, handle: u16) -> Option<&[u8]>
        ensures { option_map (λ value. value.now) result ≡ value_where self.now handle }
    {
        self.get(handle)?;
        Some(self.value(handle))
    }

    /// Returns the handle of the characteristic value with this number, from 1.
    ///
    /// Counts, in handle order, the values with this type in all services, primary or secondary,
    /// with this type. Types are 128-bit UUIDs (Core 5.0, Vol 3 Part B, 2.5.1).
    pub fn find(&self, service: u128, characteristic: u128, number: u16) -> Option<u16>
        ensures found { result ≡ value_found self.now service characteristic number }
        ensures value { IfSome result (λ handle. is_value_at self.now.attributes handle ≡ true) }
    {
        find::find_value(
            &self.attributes,
            &self.values,
            service,
            characteristic,
            number,
        )
    }

    /// Returns the last handle of the group that an attribute begins, else its own handle.
    ///
    /// A service ends before the next service, a characteristic before the next characteristic or
    /// service, the last with the table.
    pub fn group_end(&self, handle: u16) -> u16
        requires { IsSome (attribute_at self.now.attributes handle) }
        ensures { result ≡ group_end_at self.now.attributes handle }
    {
        self.group_ends[usize::from(handle) - 1]
    }

    /// Returns the handles of a type from `first` to `last`, ascending.
    ///
    /// Needs at most 22 comparisons, which `steps` counts.
    pub fn of_type<S: Steps>(&self, kind: u128, first: u16, last: u16, steps: &mut S) -> &[u16]
        ensures handles { result.now ≡ handles_of_type self.now.attributes kind first last }
        ensures steps { S.count steps.new ≤ S.count steps.old + 22 }
    {
        att_attributes::of_type(
            &self.by_type,
            &self.runs,
            &self.attributes,
            kind,
            first,
            last,
            steps,
        )
    }

    /// Returns the largest length that a write may give the value, in octets.
    ///
    /// A fixed value keeps its length.
    pub fn room(&self, handle: u16) -> usize
        requires { IsSome (attribute_at self.now.attributes handle) }
        ensures { result ≡ room_at self.now handle }
    {
        let attr = &self.attributes[usize::from(handle) - 1];
        if attr.fixed {
            self.value(handle).len()
        } else {
            usize::from(attr.largest)
        }
    }

    fn is_fixed(&self, handle: u16) -> bool
        requires { IsSome (attribute_at self.now.attributes handle) }
        ensures { result ≡ is_fixed_at self.now.attributes handle }
    {
        self.attributes[usize::from(handle) - 1].fixed
    }

    /// Replaces the value at a handle; a fixed value keeps its length.
    pub fn set(&mut self, handle: u16, octets: &[u8])
        requires exists { IsSome (attribute_at self.old.attributes handle) }
        requires fits { length octets.now ≤ room_at self.old handle }
        requires exact { is_fixed_at self.old.attributes handle ≡ true
            → length octets.now ≡ room_at self.old handle }
        ensures attributes { self.new.attributes ≡ self.old.attributes }
        ensures values { self.new.values ≡ with_value self.old.values handle octets.now }
    {
        self.values.patch_at(handle, 0, octets, false);
    }

    /// Writes a part of the value at an offset.
    ///
    /// A variable value ends with the part; a fixed one keeps its other octets.
    pub fn patch(&mut self, handle: u16, offset: u16, part: &[u8])
        requires exists { IsSome (attribute_at self.old.attributes handle) }
        requires offset { offset ≤ length (value_at self.old.values handle) }
        requires fits { offset + length part.now ≤ room_at self.old handle }
        ensures attributes { self.new.attributes ≡ self.old.attributes }
        ensures values { self.new.values ≡ with_value self.old.values handle
            (value_with_part (is_fixed_at self.old.attributes handle)
            (value_at self.old.values handle) offset part.now) }
    {
        let fixed = self.is_fixed(handle);
        self.values
            .patch_at(handle, usize::from(offset), part, fixed);
    }

    /// Returns the bits that the CCCD at a handle may have. The value is the attribute before it.
    pub fn configuration_bits(&self, handle: u16) -> u8
        ensures { result ≡ configuration_bits_at self.now.attributes handle }
    {
        match self.get(handle.saturating_sub(1)) {
            Some(attr) => attr.guard.properties.configuration_bits(),
            None => 0,
        }
    }

    /// Returns true if the attribute is a CCCD that may have these bits.
    ///
    /// A client's row then has space for it.
    #[tactic(auto, using(crate::proofs::Configurations::room_in_row))]
    pub fn supports(&self, handle: u16, bits: u8) -> bool
        ensures supported { result ≡ is_supported self.now.attributes (handle, bits) }
        ensures row { HasRowRoom self.now.attributes handle }
    {
        match self.get(handle) {
            Some(attr) => {
                attr.role == Role::Configuration && bits & self.configuration_bits(handle) == bits
            }
            None => false,
        }
    }

    /// Returns the handle of the Service Changed value, if any (Core 5.0, Vol 3 Part G, 7.1).
    ///
    /// Writes never change it, so callers may cache it.
    pub fn changer(&self) -> Option<u16>
        ensures changer { result ≡ changer_of self.now }
        ensures found { IfSome result (λ handle. IsOfAChanger self.now handle) }
        ensures most { IfSome result (λ handle. handle ≤ MAX_ATTRIBUTES) }
    {
        changer::changer_of(&self.attributes, &self.values)
    }

    /// Returns the sum of the values' largest lengths in octets.
    pub fn octets(&self) -> usize
        ensures sum { result ≡ sum_by (λ (attr : Attr). attr.largest) self.now.attributes }
        ensures most { result ≤ MAX_TABLE_OCTETS }
    {
        self.values.octets()
    }
}
