//! What a line begins with, where numbers are all that follows.
ghost use Rattle.std.specs.Prelude.{◌≡◌, ◌≢◌, ℕ, ◌≤◌, ◌++◌, ◌∷◌, [], List, MatchOption};
ghost use Rattle.trace_text.specs.Rows.{client_head, client_count, client_is_wide, thread_head, thread_count, thread_is_wide, request_head, request_count, allows, reply_head, reply_count, reply_is_wide};

use workload_reader::after;

/// What a client does, by what its line has in front of the client's number.
#[derive(Clone, Copy, Debug)]
pub(crate) enum ClientRow {
    Enter,
    Admit,
    Make,
    Put,
    Get,
    Drop,
    Flushed,
    Evict,
}

/// What a thread does, by what its line has in front of its numbers.
#[derive(Clone, Copy, Debug)]
pub(crate) enum ThreadRow {
    Serve,
    Map,
    Skip,
    Seal,
    Send,
    Tick,
}

/// What a thread asks of the disk, by what the line has in front of its numbers.
#[derive(Clone, Copy, Debug)]
pub(crate) enum RequestRow {
    Pages,
    Log,
    Commit,
    Home,
    Clear,
}

/// What a call answers, by what the answer has in front of its numbers.
#[derive(Clone, Copy, Debug)]
pub(crate) enum ReplyRow {
    Done,
    Count,
    NoFile,
    Exists,
    NoSlot,
    TooBig,
    NoSpace,
    Stopped,
    ReadFault,
}

/// What a client's line begins with, and what follows it, from the client's number on.
pub(crate) fn client_row(text: &[u8]) -> Option<(ClientRow, &[u8])>
    ensures { MatchOption result ((row : ClientRow) (rest : List ℕ) → text.now ≢ client_head row ++ rest)
        (λ r. text.now ≡ client_head r.0 ++ r.1.now) }
{
    if let Some(rest) = after(text, b"put c") {
        Some((ClientRow::Put, rest))
    } else if let Some(rest) = after(text, b"get c") {
        Some((ClientRow::Get, rest))
    } else if let Some(rest) = after(text, b"enter c") {
        Some((ClientRow::Enter, rest))
    } else if let Some(rest) = after(text, b"admit c") {
        Some((ClientRow::Admit, rest))
    } else if let Some(rest) = after(text, b"evict c") {
        Some((ClientRow::Evict, rest))
    } else if let Some(rest) = after(text, b"make c") {
        Some((ClientRow::Make, rest))
    } else if let Some(rest) = after(text, b"drop c") {
        Some((ClientRow::Drop, rest))
    } else {
        let rest = after(text, b"flushed c")?;
        Some((ClientRow::Flushed, rest))
    }
}

/// What a thread's line begins with, and what follows it.
pub(crate) fn thread_row(text: &[u8]) -> Option<(ThreadRow, &[u8])>
    ensures { MatchOption result ((row : ThreadRow) (rest : List ℕ) → text.now ≢ thread_head row ++ rest)
        (λ r. text.now ≡ thread_head r.0 ++ r.1.now) }
{
    if let Some(rest) = after(text, b"send dq") {
        Some((ThreadRow::Send, rest))
    } else if let Some(rest) = after(text, b"serve wb") {
        Some((ThreadRow::Serve, rest))
    } else if let Some(rest) = after(text, b"map wb") {
        Some((ThreadRow::Map, rest))
    } else if let Some(rest) = after(text, b"skip wb") {
        Some((ThreadRow::Skip, rest))
    } else if let Some(rest) = after(text, b"seal cm") {
        Some((ThreadRow::Seal, rest))
    } else {
        let rest = after(text, b"tick tk")?;
        Some((ThreadRow::Tick, rest))
    }
}

/// What the line of a thread's request begins with, and what follows it.
pub(crate) fn request_row(text: &[u8]) -> Option<(RequestRow, &[u8])>
    ensures { MatchOption result ((row : RequestRow) (rest : List ℕ) → text.now ≢ request_head row ++ rest)
        (λ r. text.now ≡ request_head r.0 ++ r.1.now) }
{
    if let Some(rest) = after(text, b"add wb pages") {
        Some((RequestRow::Pages, rest))
    } else if let Some(rest) = after(text, b"add cm log") {
        Some((RequestRow::Log, rest))
    } else if let Some(rest) = after(text, b"add cm home") {
        Some((RequestRow::Home, rest))
    } else if let Some(rest) = after(text, b"add cm commit") {
        Some((RequestRow::Commit, rest))
    } else {
        let rest = after(text, b"add cm clear")?;
        Some((RequestRow::Clear, rest))
    }
}

/// What an answer begins with, and what follows it.
pub(crate) fn reply_row(text: &[u8]) -> Option<(ReplyRow, &[u8])>
    ensures { MatchOption result ((row : ReplyRow) (rest : List ℕ) → text.now ≢ reply_head row ++ rest)
        (λ r. text.now ≡ reply_head r.0 ++ r.1.now) }
{
    if let Some(rest) = after(text, b" done") {
        Some((ReplyRow::Done, rest))
    } else if let Some(rest) = after(text, b" count") {
        Some((ReplyRow::Count, rest))
    } else if let Some(rest) = after(text, b" nofile") {
        Some((ReplyRow::NoFile, rest))
    } else if let Some(rest) = after(text, b" exists") {
        Some((ReplyRow::Exists, rest))
    } else if let Some(rest) = after(text, b" noslot") {
        Some((ReplyRow::NoSlot, rest))
    } else if let Some(rest) = after(text, b" toobig") {
        Some((ReplyRow::TooBig, rest))
    } else if let Some(rest) = after(text, b" nospace") {
        Some((ReplyRow::NoSpace, rest))
    } else if let Some(rest) = after(text, b" stopped") {
        Some((ReplyRow::Stopped, rest))
    } else {
        let rest = after(text, b" readfault")?;
        Some((ReplyRow::ReadFault, rest))
    }
}

impl ClientRow {
    /// How many numbers of 32 bits follow the client.
    pub(crate) fn count(self) -> usize
        ensures value { result ≡ client_count self }
        ensures most { result ≤ 7 }
    {
        match self {
            ClientRow::Admit | ClientRow::Flushed => 0,
            ClientRow::Enter => 1,
            ClientRow::Make | ClientRow::Drop | ClientRow::Evict => 2,
            ClientRow::Get => 4,
            ClientRow::Put => 5,
        }
    }

    /// Whether one of 64 bits follows them.
    pub(crate) fn is_wide(self) -> bool
        ensures { result ≡ client_is_wide self }
    {
        match self {
            ClientRow::Get => true,
            _ => false,
        }
    }
}

impl ThreadRow {
    /// How many numbers of 32 bits follow.
    pub(crate) fn count(self) -> usize
        ensures value { result ≡ thread_count self }
        ensures most { result ≤ 7 }
    {
        match self {
            ThreadRow::Skip | ThreadRow::Tick => 0,
            ThreadRow::Send => 1,
            ThreadRow::Seal => 2,
            ThreadRow::Serve => 3,
            ThreadRow::Map => 7,
        }
    }

    /// Whether one of 64 bits follows them.
    pub(crate) fn is_wide(self) -> bool
        ensures { result ≡ thread_is_wide self }
    {
        match self {
            ThreadRow::Send | ThreadRow::Tick => true,
            _ => false,
        }
    }
}

impl RequestRow {
    /// How many numbers follow.
    pub(crate) fn count(self) -> usize
        ensures value { result ≡ request_count self }
        ensures most { result ≤ 7 }
    {
        match self {
            RequestRow::Pages => 4,
            _ => 3,
        }
    }

    /// Whether it may be for so many blocks.
    pub(crate) fn allows(self, blocks: u32) -> bool
        ensures { result ≡ allows self blocks }
    {
        match self {
            RequestRow::Pages | RequestRow::Log => true,
            _ => blocks == 1,
        }
    }
}

impl ReplyRow {
    /// How many numbers of 32 bits follow.
    pub(crate) fn count(self) -> usize
        ensures value { result ≡ reply_count self }
        ensures most { result ≤ 7 }
    {
        match self {
            ReplyRow::Count | ReplyRow::NoSpace => 1,
            _ => 0,
        }
    }

    /// Whether one of 64 bits follows it.
    pub(crate) fn is_wide(self) -> bool
        ensures { result ≡ reply_is_wide self }
    {
        match self {
            ReplyRow::Count => true,
            _ => false,
        }
    }
}
