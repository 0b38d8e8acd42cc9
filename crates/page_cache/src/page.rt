//! What a place holds.
ghost use Rattle.std.specs.Prelude.{◌≡◌, None, is_some, false};
ghost use Rattle.page_cache.specs.Held.{mark_of, mark_in, state_in};

use crate::content::Content;
use crate::key::PageKey;
use split_types::Pid;

/// How a page stands, beside its bytes and causes.
#[derive(Clone, Copy, Debug)]
pub(crate) struct State {
    pub(crate) busy: bool,
    pub(crate) loading: bool,
    /// Who pins it, or will once it is loaded.
    pub(crate) pin: Option<Pid>,
}

impl State {
    /// That of a page that nothing was done to.
    pub(crate) fn new() -> State
        ensures { result ≡ state_in None }
    {
        State {
            busy: false,
            loading: false,
            pin: None,
        }
    }
}

/// A page in its place.
#[derive(Debug, Drop)]
pub(crate) struct Page<T> {
    pub(crate) key: PageKey,
    pub(crate) bytes: Content,
    /// The tag of its causes, where it is dirty.
    pub(crate) tag: Option<T>,
    pub(crate) state: State,
}

impl<T> Page<T> {
    /// Its bytes have come. It answers what the page is found by then.
    pub(crate) fn end_load(&mut self) -> Mark
        ensures page { self.new ≡ record self.old { state = record self.old.state { loading = false } } }
        ensures mark { result ≡ mark_of (is_some self.old.tag) (record self.old.state { loading = false }) }
    {
        self.state.loading = false;
        Mark::of(self.tag.is_some(), self.state)
    }
}

/// What a page is found by, beside its key.
#[derive(Clone, Copy, Debug)]
pub(crate) struct Mark {
    /// It may be evicted.
    pub(crate) is_idle: bool,
    /// It is dirty and not busy.
    pub(crate) is_ready: bool,
    /// It is dirty or busy.
    pub(crate) is_unsettled: bool,
    pub(crate) pin: Option<Pid>,
}

impl Mark {
    /// The mark of a place without a page.
    pub(crate) fn none() -> Mark
        ensures { result ≡ mark_in None }
    {
        Mark {
            is_idle: false,
            is_ready: false,
            is_unsettled: false,
            pin: None,
        }
    }

    /// The mark of a page, dirty or not, that stands so.
    pub(crate) fn of(dirty: bool, state: State) -> Mark
        ensures { result ≡ mark_of dirty state }
    {
        let settled = !dirty && !state.busy;
        Mark {
            is_idle: settled && !state.loading && state.pin.is_none(),
            is_ready: dirty && !state.busy,
            is_unsettled: !settled,
            pin: state.pin,
        }
    }
}
