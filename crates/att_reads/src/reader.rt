ghost use Rattle.std.specs.Prelude.{◌≡◌, ◌≤◌, ◌∷◌, [], IfOk, IfErr, IfSome, IsSome, None, Some};
ghost use Rattle.std.specs.Option.{option_copied};
ghost use Rattle.att_reads.specs.Access.{refusal_at, value_for};
ghost use Rattle.att_attributes.specs.Attributes.{attribute_at};

use att_attributes::Attr;
use att_policy::{Access, Standing, first_broken, first_broken_in_place, is_open};
use att_table::{ConfigRow, Role, Table};

/// A client that reads.
#[derive(Clone, Copy)]
pub struct Reader<'a> {
    pub table: &'a Table,
    /// The client's own configurations.
    pub row: &'a ConfigRow,
    /// The client's security state.
    pub standing: &'a Standing,
}

/// Returns the value of a CCCD.
fn configuration(bits: u8) -> &'static [u8]
    requires { bits ≤ 3 }
    ensures { result.now ≡ bits ∷ 0 ∷ [] }
{
    match bits {
        0 => &[0, 0],
        1 => &[1, 0],
        2 => &[2, 0],
        _ => &[3, 0],
    }
}

impl<'a> Reader<'a> {
    /// Returns the value at a handle, or the error code of the first broken rule.
    #[inline(always)]
    pub fn read(self, handle: u16) -> Result<&'a [u8], u8>
        ensures permitted { IfOk result
            (λ value. refusal_at self.entry.table.now.attributes self.entry.standing.now handle
            ≡ None) }
        ensures value { IfOk result
            (λ value. value.now ≡ value_for self.entry.table.now self.entry.row.now handle) }
        ensures exists { IfOk result
            (λ value. IsSome (attribute_at self.entry.table.now.attributes handle)) }
        ensures refused { IfErr result
            (λ code. refusal_at self.entry.table.now.attributes self.entry.standing.now handle
            ≡ Some code) }
    {
        let attr = self.table.get(handle);
        let guard = attr.map(|attr| &attr.guard);
        if let Some((_, code)) = first_broken(Access::Read, guard, self.standing) {
            return Err(code);
        }
        Ok(self.value_of(attr, handle))
    }

    /// Returns the value at a handle if every client may read it.
    #[inline(always)]
    pub fn read_open(self, handle: u16) -> Option<&'a [u8]>
        ensures permitted { IfSome result
            (λ value. refusal_at self.entry.table.now.attributes self.entry.standing.now handle
            ≡ None) }
        ensures value { IfSome result
            (λ value. value.now ≡ value_for self.entry.table.now self.entry.row.now handle) }
    {
        let attr = self.table.get(handle)?;
        if !is_open(Access::Read, &attr.guard) {
            return None;
        }
        Some(self.value_of(Some(attr), handle))
    }

    /// Does the same as `read`, inlined: faster for a request of one value.
    #[inline(always)]
    pub fn read_one(self, handle: u16) -> Result<&'a [u8], u8>
        ensures permitted { IfOk result
            (λ value. refusal_at self.entry.table.now.attributes self.entry.standing.now handle
            ≡ None) }
        ensures value { IfOk result
            (λ value. value.now ≡ value_for self.entry.table.now self.entry.row.now handle) }
        ensures exists { IfOk result
            (λ value. IsSome (attribute_at self.entry.table.now.attributes handle)) }
        ensures refused { IfErr result
            (λ code. refusal_at self.entry.table.now.attributes self.entry.standing.now handle
            ≡ Some code) }
    {
        let attr = self.table.get(handle);
        let guard = attr.map(|attr| &attr.guard);
        if let Some((_, code)) = first_broken_in_place(Access::Read, guard, self.standing) {
            return Err(code);
        }
        Ok(self.value_of(attr, handle))
    }

    /// Returns the value; a CCCD's is the client's own.
    #[inline(always)]
    fn value_of(self, attr: Option<&Attr>, handle: u16) -> &'a [u8]
        requires attribute { option_copied attr
            ≡ attribute_at self.table.now.attributes handle }
        requires exists { IsSome (attribute_at self.table.now.attributes handle) }
        ensures { result.now ≡ value_for self.entry.table.now self.entry.row.now handle }
    {
        match attr {
            Some(attr) if attr.role == Role::Configuration => configuration(self.row.get(handle)),
            _ => self.table.value(handle),
        }
    }
}
