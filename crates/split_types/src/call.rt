use crate::name::Name;

/// What a process asks for.
#[derive(Clone, Copy, Debug)]
pub enum Call {
    Creat {
        name: Name,
    },
    Write {
        name: Name,
        off: u32,
        len: u32,
        fill: u8,
    },
    Read {
        name: Name,
        off: u32,
        len: u32,
    },
    Fsync {
        name: Name,
    },
    Unlink {
        name: Name,
    },
}

/// What a call answers.
#[derive(Clone, Copy, Debug, PartialEq, Eq)]
pub enum Reply {
    Done,
    /// The number of bytes read, and the sum of their values.
    Count(u32, u64),
    NoFile,
    Exists,
    NoSlot,
    TooBig,
    /// The number of bytes that were written before no block was free.
    NoSpace(u32),
    Stopped,
    ReadFault,
}
