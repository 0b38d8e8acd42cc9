//! What holds of the journal, and what it makes of the histories that serve as examples. These functions do nothing: their
//! contracts are what is proved.
ghost use Rattle.split_types.specs.JournaledHistories.{JournaledHistories};
ghost use Rattle.split_types.specs.JournaledStates.{JournaledStates};
ghost use Rattle.split_types.specs.JournalPromises.{CommitsInOrder, JournalInOrder, SealsInOrder, SyncsAreCommitted};

/// The histories that serve as examples of the journal are legal, and are what turns and draining make; their calls have
/// the replies, and their requests the costs, that are due.
pub fn journaled_histories()
    ensures { JournaledHistories }
{}

/// In these histories, after some of their events, the transactions in the journal, the buffers that are marked or await
/// their home, what an fsync waits for, and how many sets of processes have to be kept.
pub fn journaled_states()
    ensures { JournaledStates }
{}

/// Each seal takes the next number and all buffers that are marked, of which there are some, while a slot of the journal is
/// left.
pub fn seals_in_order()
    ensures { SealsInOrder }
{}

/// The requests of a transaction come in order: its log behind its seal, its commit request when the log is done, the home
/// requests by rising block when all transactions of the journal are committed, and the clear request when these are done.
pub fn journal_in_order()
    ensures { JournalInOrder }
{}

/// In a legal history of an accepted workload no commit record is sent before its data: wherever the commit request of a
/// transaction is sent, every request for pages that was added before its seal is done well by then.
pub fn commits_in_order()
    ensures { CommitsInOrder }
{}

/// When an fsync returns, the last make or map of its file before it was flushed is committed.
pub fn syncs_are_committed()
    ensures { SyncsAreCommitted }
{}
