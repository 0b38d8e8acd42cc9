//! The parents of an event and the processes to blame for it, found by walking back through a history.
//!
//! Nothing is kept from one call to the next: what the contracts promise are the values of the
//! definitions `parents_of` and `blame` of `split_types`, for any history. A walk for a buffer's open
//! dirtyings stops where the buffer was last freed or written out.
//!
//! Whatever shows why a process is billed stands on this crate, and so does the stack where it keeps no
//! causes of its own.
#![tactic(auto)]

mod blaming;
mod parentage;
mod target;
mod walk;

pub use blaming::blame;
pub use parentage::parents;
