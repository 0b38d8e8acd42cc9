//! Laws: their contracts are what is proved, and a call does nothing.

#[test]
fn laws_of_histories() {
    split_types::worked_histories();
    split_types::open_are_open();
    split_types::parents_are_parents();
    split_types::parents_are_older();
    split_types::blamed_are_blamed();
    split_types::blame_is_set();
    split_types::tag_is_blame();
    split_types::running_causes();
    split_types::dirty_are_open();
    split_types::dirty_have_causes();
    split_types::sends_show_costs();
    split_types::parts_are_tags();
    split_types::bills_conserve();
    split_types::plays_legal();
    split_types::stays_below();
    split_types::never_stuck();
    split_types::drains_whole();
}

#[test]
fn laws_of_texts() {
    workload_reader::texts_spell_one_workload();
    workload_reader::workloads_have_one_text();
    workload_reader::texts_have_one_refusal();
    workload_reader::spelled_texts_are_not_refused();
    workload_reader::reading_is_exact();
    trace_text::texts_begin_with_one_trace();
    trace_text::texts_have_one_refusal();
    trace_text::traces_are_not_refused();
    trace_text::reading_is_exact();
    trace_text::printed_traces_are_read();
    trace_text::legal_traces_are_read();
}
