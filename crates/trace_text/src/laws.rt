//! Laws of texts. These functions do nothing: their contracts are what is proved.
ghost use Rattle.trace_text.specs.Laws.{OneTrace, OneRefusal, NeverBoth, ReadingIsExact, PrintedTracesAreRead, LegalTracesAreRead};

/// A text begins with the trace of one workload and one list of events at most.
pub fn texts_begin_with_one_trace()
    ensures { OneTrace }
{}

/// A text is refused by one line at most, for one cause.
pub fn texts_have_one_refusal()
    ensures { OneRefusal }
{}

/// A text that begins with a trace is not refused.
pub fn traces_are_not_refused()
    ensures { NeverBoth }
{}

/// Reading gives the trace that a text begins with, and the refusal that it has; want of memory alone can come in
/// their place.
pub fn reading_is_exact()
    ensures { ReadingIsExact }
{}

/// A trace that was printed, whatever follows it, is read as the workload and the history that it was printed of.
pub fn printed_traces_are_read()
    ensures { PrintedTracesAreRead }
{}

/// That holds of each legal history of an accepted workload: its events have lines, and are few enough.
pub fn legal_traces_are_read()
    ensures { LegalTracesAreRead }
{}
