//! What draining gives. These functions do nothing: their contracts are what is proved.
ghost use Rattle.split_types.specs.Draining.{DrainsWhole, NeverStuck, PlaysLegal, StaysBelow};

/// Turns that are taken keep a history legal.
pub fn plays_legal()
    ensures { PlaysLegal }
{}

/// A legal history of an accepted workload stays below the bound.
pub fn stays_below()
    ensures { StaysBelow }
{}

/// Where no actor that is asked in turn has a next event, a legal history of an accepted workload is drained.
pub fn never_stuck()
    ensures { NeverStuck }
{}

/// Draining a legal history of an accepted workload ends with a legal and drained one.
pub fn drains_whole()
    ensures { DrainsWhole }
{}
