use crate::ids::Pid;
use crate::list::List;
use crate::request::Request;

/// How far a request has come.
#[derive(Clone, Copy, Debug, PartialEq, Eq)]
pub enum ReqState {
    /// It has no `done` yet.
    Queued,
    Done,
    Bad,
}

/// What a report says of a request. Cost and shares are 0 where it is queued; the shares stand by
/// rising pid, one for each process to blame for the request.
#[derive(Debug, Drop)]
pub struct ReqFact {
    pub req: Request,
    pub state: ReqState,
    pub cost: u64,
    pub shares: List<(Pid, u64)>,
}

/// What a report says of an account.
#[derive(Clone, Copy, Debug, PartialEq, Eq)]
pub struct AccountFact {
    pub granted: i64,
    pub billed: i64,
    pub pending: i64,
    pub balance: i64,
}

/// What a report says of a history. `billed` has one number for each process; `made` has one for each
/// process, and then for `wb`, `cm`, `dq`, `dn` and `tk`.
#[derive(Debug, Drop)]
pub struct Facts {
    pub reqs: List<ReqFact>,
    pub billed: List<u64>,
    pub accounts: List<AccountFact>,
    pub made: List<u64>,
    pub clock: u64,
}
