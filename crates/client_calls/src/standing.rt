//! How a page stands.
ghost use Rattle.std.specs.Prelude.{◌≡◌, Option, option_map};
ghost use Rattle.page_cache.specs.Held.{Held};
ghost use Rattle.page_cache.specs.Cached.{state_of};
ghost use Rattle.client_calls.specs.Standing.{standing_of};

use page_cache::PageState;

/// How a page stands, as far as what comes next with a piece of it depends on that.
#[derive(Clone, Copy, Debug)]
pub(crate) struct Standing {
    /// Whether it is held.
    pub(crate) held: bool,
    /// Whether its bytes are awaited.
    pub(crate) loading: bool,
    /// Whether it is dirty.
    pub(crate) dirty: bool,
    /// Whether it is dirty or busy.
    pub(crate) unsettled: bool,
}

impl Standing {
    /// That of a page in this state, or of one that isn't held.
    pub(crate) fn of(page: Option<PageState>) -> Standing
        ensures { (x : Option Held) → page ≡ option_map state_of x → result ≡ standing_of x }
    {
        match page {
            Some(state) => Standing {
                held: true,
                loading: state.loading,
                dirty: state.dirty,
                unsettled: state.dirty || state.busy,
            },
            None => Standing {
                held: false,
                loading: false,
                dirty: false,
                unsettled: false,
            },
        }
    }
}
