ghost use Rattle.std.specs.Prelude.{◌≡◌, ℕ, ◌+◌, ◌≤◌, length, is_some, IsSome, Some};
ghost use Rattle.std.specs.FinMap as map;
ghost use Rattle.att_numbers.specs.Types.{Handle};
ghost use Rattle.att_values.specs.Cell.{value_with_part};
ghost use Rattle.att_values.specs.ValueStore.{ByHandle, value_in};

/// The values of attributes, by handles from 1 without gaps.
///
/// The room of a value is its largest length in octets, at most `MAX_VALUE`.
pub trait ValueStore {
    ghost contents: { Self → ByHandle };

    /// The room of a handle, 0 without a value.
    ghost room: { Self → Handle → ℕ };

    /// Returns true if the handle has a value.
    fn contains(&self, handle: u16) -> bool
        ensures { result ≡ is_some (map.get (contents self.now) handle) };

    /// Returns the room of the handle, 0 without a value.
    fn room(&self, handle: u16) -> usize
        ensures { result ≡ room self.now handle };

    /// Returns the value at a handle.
    fn value(&self, handle: u16) -> &[u8]
        requires { IsSome (map.get (contents self.now) handle) }
        ensures value { map.get (contents self.now) handle ≡ Some result.now }
        ensures fits { length result.now ≤ room self.now handle };

    /// Writes a part at an offset; without `keep`, the value ends with the part.
    fn patch(&mut self, handle: u16, offset: usize, part: &[u8], keep: bool)
        requires exists { IsSome (map.get (contents self.old) handle) }
        requires offset { offset ≤ length (value_in (contents self.old) handle) }
        requires fits { offset + length part.now ≤ room self.old handle }
        ensures contents { contents self.new
            ≡ map.insert (contents self.old) handle
            (value_with_part keep (value_in (contents self.old) handle) offset part.now) }
        ensures room { room self.new ≡ room self.old };

    /// Replaces the value at a handle.
    fn set(&mut self, handle: u16, octets: &[u8])
        requires exists { IsSome (map.get (contents self.old) handle) }
        requires fits { length octets.now ≤ room self.old handle }
        ensures contents { contents self.new ≡ map.insert (contents self.old) handle octets.now }
        ensures room { room self.new ≡ room self.old }
    {
        self.patch(handle, 0, octets, false);
    }
}
