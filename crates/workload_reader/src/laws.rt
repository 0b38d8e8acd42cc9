//! Laws of texts. These functions do nothing: their contracts are what is proved.
ghost use Rattle.workload_reader.specs.Laws.{OneWorkload, OneText, OneRefusal, NeverBoth, ReadingIsExact};

/// A text spells one workload at most.
pub fn texts_spell_one_workload()
    ensures { OneWorkload }
{}

/// A workload has one text at most.
pub fn workloads_have_one_text()
    ensures { OneText }
{}

/// A text is refused by one line at most, for one cause.
pub fn texts_have_one_refusal()
    ensures { OneRefusal }
{}

/// A text that spells a workload is not refused.
pub fn spelled_texts_are_not_refused()
    ensures { NeverBoth }
{}

/// Reading gives the workload that a text spells, and the refusal that it has; want of memory alone can come in
/// their place.
pub fn reading_is_exact()
    ensures { ReadingIsExact }
{}
