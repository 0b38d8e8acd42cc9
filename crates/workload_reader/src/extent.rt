use split_types::Name;

/// Some bytes of a file, by numbers that are none where they are out of their ranges.
#[derive(Clone, Copy, Debug)]
pub(crate) struct Extent {
    pub(crate) name: Name,
    pub(crate) off: Option<u32>,
    pub(crate) len: Option<u32>,
}
