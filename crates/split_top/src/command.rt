//! What the words ask for.
ghost use Rattle.std.specs.Prelude.{map, MatchOption};
ghost use Rattle.split_top.specs.Command.{Asks, AskNothing};

use workload_reader::number_of;

/// What can be asked for.
#[derive(Clone, Copy, Debug, PartialEq, Eq)]
pub(crate) enum Command {
    /// Run a workload, and show its events and its report.
    Replay,
    /// Show the workload that is made from a number.
    Gen(u32),
}

#[tactic(auto, using(crate::proofs::CommandLaws::nothing_asked))]
/// What the words ask for, or none where they are no form of words.
pub(crate) fn command_of(words: &[&str]) -> Option<Command>
    ensures { MatchOption result (AskNothing (map (λ word. word.now) words.now))
        (λ command. Asks (map (λ word. word.now) words.now) command) }
{
    match words {
        [word] => {
            if *word == "replay" {
                Some(Command::Replay)
            } else {
                None
            }
        }
        [word, n] => {
            if *word == "gen" {
                Some(Command::Gen(number_of(n.as_bytes())?))
            } else {
                None
            }
        }
        _ => None,
    }
}
