/// Why a text is refused.
#[derive(Clone, Copy, Debug, PartialEq, Eq)]
pub enum Cause {
    /// The line is none of the lines that may stand here.
    Form,
    /// A number is out of its range, or a send's number is not above the one before.
    Range,
    /// The account or the process that the line names doesn't exist.
    Ref,
    /// A file of this name stands already.
    Name,
    /// With this line there are too many of its kind, too many pages or too many turns.
    Limit,
    /// With this file the files don't fit into the device.
    Space,
    /// The line is right, but what it asks for isn't built yet.
    NotBuilt,
    /// The text ends before its last line does.
    Cut,
    /// Bytes follow the last line.
    After,
    /// The text is too long.
    Long,
}
