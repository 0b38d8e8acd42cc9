//! What is known of files and of their maps. These functions do nothing: their contracts are what is proved.
ghost use Rattle.split_types.specs.FilesInOrder.{FilesAreInOrder};
ghost use Rattle.split_types.specs.MapsInOrder.{MapsAreInOrder};
ghost use Rattle.split_types.specs.FiledHistories.{FiledHistories};
ghost use Rattle.split_types.specs.FiledStates.{FiledStates};

/// Each file that is there has a number, a slot and a name of its own, by which it is found.
pub fn files_are_in_order()
    ensures { FilesAreInOrder }
{}

/// No two pages have one block; what writeback serves may be served, and free blocks are promised once.
pub fn maps_are_in_order()
    ensures { MapsAreInOrder }
{}

/// The histories that serve as examples of files are legal, and are what turns and draining make; their calls have the
/// replies, and their requests the costs, that are due.
pub fn filed_histories()
    ensures { FiledHistories }
{}

/// In these histories, after some of their events, the sizes of files, their blocks and slots, and the blocks that are
/// free, promised or waiting.
pub fn filed_states()
    ensures { FiledStates }
{}
