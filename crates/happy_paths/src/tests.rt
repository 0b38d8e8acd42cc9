//! One file a subject.
ghost use Rattle.std.specs.Prelude.{◌≡◌, Some, IfOk};

use std::test::Fail;

mod blaming;
mod causes;
mod costs;
mod histories;
mod laws;
mod machine;
mod numbers;
mod printed_lines;
mod printed_pages;
mod printed_traces;
mod reports;
mod sources_and_sinks;
mod texts;
mod traces;
mod types;

/// What is there; the test fails where nothing is.
fn found<T>(value: Option<T>) -> Result<T, Fail>
    ensures { IfOk result (λ x. value ≡ Some x) }
{
    match value {
        Some(x) => Ok(x),
        None => Err("nothing is there".into()),
    }
}
