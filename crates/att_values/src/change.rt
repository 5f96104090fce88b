ghost use Rattle.std.specs.Prelude.{◌≡◌};
ghost use Rattle.att_values.specs.Change.{ChangeFits, ChangesFit, after_change, contents_after};

use crate::value_store::ValueStore;

/// A change of a value.
#[derive(Clone, Copy)]
pub enum Change<'a> {
    /// Replaces the value.
    Set {
        handle: u16,
        octets: &'a [u8],
    },
    /// Writes a part at an offset; without `keep`, the value ends with the part.
    Patch {
        handle: u16,
        offset: usize,
        part: &'a [u8],
        keep: bool,
    },
}

/// Makes one change.
pub fn apply<S: ValueStore>(store: &mut S, change: &Change<'_>)
    requires { ChangeFits (S.room store.old) (S.contents store.old) change.now }
    ensures contents { S.contents store.new ≡ after_change change.now (S.contents store.old) }
    ensures room { S.room store.new ≡ S.room store.old }
{
    match *change {
        Change::Set { handle, octets } => store.set(handle, octets),
        Change::Patch {
            handle,
            offset,
            part,
            keep,
        } => store.patch(handle, offset, part, keep),
    }
}

/// Makes changes in order. Every store ends with the same contents.
pub fn run<S: ValueStore>(store: &mut S, changes: &[Change<'_>])
    requires { ChangesFit (S.room store.old) (S.contents store.old) changes.now }
    // The store is a finite map from handles to octets, which these changes change in order.
    ensures contents { S.contents store.new ≡ contents_after changes.now (S.contents store.old) }
    ensures room { S.room store.new ≡ S.room store.old }
{
    for change in changes {
        apply(store, change);
    }
}
