/// A write to one attribute's value.
#[derive(Clone, Copy)]
pub(crate) struct EntryRef<'a> {
    pub handle: u16,
    /// The offset in octets.
    pub offset: u16,
    pub part: &'a [u8],
}
