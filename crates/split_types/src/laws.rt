//! Laws of the definitions. These functions do nothing: their contracts are what is proved.
ghost use Rattle.split_types.specs.WorkedHistories.{WorkedHistories};
ghost use Rattle.split_types.specs.ByPlace.{OpenAreOpen, ParentsAreParents, ParentsAreOlder, BlamedAreBlamed, BlameIsSet, TagIsBlame};
ghost use Rattle.split_types.specs.RunningCauses.{RunningCauses};
ghost use Rattle.split_types.specs.LegalHistories.{DirtyAreOpen, DirtyHaveCauses, SendsShowCosts, PartsAreTags, BillsConserve};

/// The worked histories have the tags, costs, shares and bills that are due.
pub fn worked_histories()
    ensures { WorkedHistories }
{}

/// A place is among the open dirtyings of a buffer exactly where its event dirties the buffer, and no
/// later event frees it or writes it out.
pub fn open_are_open()
    ensures { OpenAreOpen }
{}

/// The parents of an event are exactly those that the places of events give.
pub fn parents_are_parents()
    ensures { ParentsAreParents }
{}

/// All parents of an event come before it.
pub fn parents_are_older()
    ensures { ParentsAreOlder }
{}

/// A process is to blame for an event exactly where it makes the event itself, or is to blame for a parent.
pub fn blamed_are_blamed()
    ensures { BlamedAreBlamed }
{}

/// Those to blame for an event are a set of processes.
pub fn blame_is_set()
    ensures { BlameIsSet }
{}

/// The tag of a request has those to blame for its add.
pub fn tag_is_blame()
    ensures { TagIsBlame }
{}

/// What each event makes of the processes to blame for a buffer's open dirtyings.
pub fn running_causes()
    ensures { RunningCauses }
{}

/// In a legal history of an accepted workload a page is dirty exactly where it has open dirtyings.
pub fn dirty_are_open()
    ensures { DirtyAreOpen }
{}

/// In a legal history of an accepted workload a page is dirty exactly where some process is to blame for
/// its open dirtyings.
pub fn dirty_have_causes()
    ensures { DirtyHaveCauses }
{}

/// In a legal history of an accepted workload each send shows the cost of its request.
pub fn sends_show_costs()
    ensures { SendsShowCosts }
{}

/// The cost of a request of an accepted workload is split over its tag alone.
pub fn parts_are_tags()
    ensures { PartsAreTags }
{}

/// In a legal history of an accepted workload each request has processes that pay for it and completes
/// at most once, what they bear adds up to its cost, and all bills and ticks to the clock.
pub fn bills_conserve()
    ensures { BillsConserve }
{}
