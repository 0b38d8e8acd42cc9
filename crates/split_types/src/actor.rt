use crate::ids::Pid;

/// Who makes an event.
#[derive(Clone, Copy, Debug, PartialEq, Eq)]
pub enum Actor {
    /// A process.
    Client(Pid),
    /// The writeback thread.
    Wb,
    /// The journal's commit thread.
    Cm,
    /// The dispatcher, which sends requests to the disk.
    Dq,
    /// The completion of the request at this place among those in flight, in order of sending.
    Dn(u32),
    /// The clock.
    Tk,
}
