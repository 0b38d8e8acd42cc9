/// How a page that is held stands.
#[derive(Clone, Copy, Debug, PartialEq, Eq)]
pub struct PageState {
    /// It was written since it was last taken out.
    pub dirty: bool,
    /// It was taken out, and isn't written yet.
    pub busy: bool,
    /// Its bytes are awaited.
    pub loading: bool,
    /// The process for which it was loaded hasn't used it yet.
    pub pinned: bool,
}
