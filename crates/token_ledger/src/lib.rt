//! What each account was granted and billed, and what is held back for writes that are still to come.
//!
//! Each process belongs to an account. As the clock advances, an account is granted units up to its cap. A
//! request that is done is billed: its cost is split over its parts, and each part over the processes to blame
//! for it. Between a write and the request that carries it to the disk stands a pair of a buffer and a process:
//! its estimate is held back from the process's account until the buffer is freed, or the request is done.
//!
//! Contracts see a [`Ledger`] as its books: the accounts, the account of each process, what each account was
//! granted and billed, and the list of the open pairs. The balance of an account is a definition over them: what
//! it was granted, less what it was billed, less the estimates of all open pairs of its processes. No call adds
//! them up: the ledger keeps what is held back from each account, and finds the pairs of a buffer by the buffer.
//! Only `new`, `room` and `open_pair` ask for memory.
//!
//! Whatever bills requests to accounts stands on this crate.
#![tactic(auto)]

mod billing;
mod ledger;
mod pair;
mod pairs;
mod place;
mod split;
mod standing;

pub use billing::bills_within_costs;
pub use ledger::Ledger;
pub use pair::Pair;
