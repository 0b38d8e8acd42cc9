//! What writeback is doing.
ghost use Rattle.std.specs.Prelude.{◌≡◌, option_map};
ghost use Rattle.proxies.specs.Causes.{causes_of_writeback};

use split_types::Run;

/// What writeback is doing, and the causes of what it serves.
#[derive(Debug, Drop)]
pub enum Writeback<T> {
    /// It serves nothing.
    Idle,
    /// It serves these pages.
    Serving { run: Run, causes: T },
    /// It serves these pages, and has mapped them to blocks or has the file's new size on disk.
    Mapped { run: Run, causes: T },
}

impl<T> Writeback<T> {
    /// The causes of the service under way; none exactly in `Idle`.
    pub fn causes(&self) -> Option<&T>
        ensures { option_map (λ causes. causes.now) result ≡ causes_of_writeback self.now }
    {
        match self {
            Writeback::Idle => None,
            Writeback::Serving { run: _, causes } | Writeback::Mapped { run: _, causes } => Some(
                causes,
            ),
        }
    }
}
