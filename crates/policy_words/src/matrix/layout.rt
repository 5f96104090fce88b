//! The widths of the cells of a row.

ghost use Rattle.std.specs.Prelude.{◌≤◌};

/// The widths of the cells of a row: of names, of values, and of each column.
#[derive(Clone, Copy)]
pub(crate) struct Layout {
    pub name: usize,
    pub value: usize,
    pub cell: usize,
    /// No name is cut.
    pub is_whole: bool,
    ghost narrow_name: { name ≤ 64 },
    ghost narrow_value: { value ≤ 64 },
    ghost narrow_cell: { cell ≤ 64 },
}
