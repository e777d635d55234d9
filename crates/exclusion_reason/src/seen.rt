//! The states that a search has come to.
ghost use Rattle.std.specs.Prelude.{◌≡◌, ◌+◌, ◌<◌, ◌⊎◌, true, false, Bool, length};
ghost use Rattle.exclusion_reason.specs.Seen.{holds, left, is_seen, unseen};
ghost use Rattle.exclusion_reason.specs.declared.aim.State.{State};

use crate::aim::State;

/// Which states of a node the search has come to.
#[derive(Clone, Copy)]
pub(crate) struct Met {
    /// The one that is neither free nor behind its turn.
    neither: bool,
    /// The one that is free alone.
    free: bool,
    /// The one that is behind its turn alone.
    behind: bool,
    /// The one that is both.
    both: bool,
}

impl Met {
    /// None of them.
    pub(crate) fn none() -> Met
        ensures none { (free behind : Bool) → holds result free behind ≡ false }
        ensures left { left result ≡ 4 }
    {
        Met {
            neither: false,
            free: false,
            behind: false,
            both: false,
        }
    }

    fn holds(self, free: bool, behind: bool) -> bool
        ensures answer { result ≡ holds self free behind }
    {
        match (free, behind) {
            (false, false) => self.neither,
            (true, false) => self.free,
            (false, true) => self.behind,
            (true, true) => self.both,
        }
    }

    fn with(mut self, free: bool, behind: bool) -> Met
        requires new { holds self free behind ≡ false }
        ensures only { (f b : Bool) → holds result f b ≡ true → (holds self f b ≡ true) ⊎ ((f ≡ free) × (b ≡ behind)) }
        ensures fewer { left result + 1 ≡ left self }
    {
        match (free, behind) {
            (false, false) => self.neither = true,
            (true, false) => self.free = true,
            (false, true) => self.behind = true,
            (true, true) => self.both = true,
        }
        self
    }
}

/// Whether the search has come to the state.
pub(crate) fn is_seen(seen: &[Met], state: State) -> bool
    requires node { state.node < length seen.now }
    ensures answer { result ≡ is_seen seen.now state }
{
    seen[state.node as usize].holds(state.free, state.behind)
}

/// Notes a state that the search has not come to before.
pub(crate) fn note(seen: &mut Vec<Met>, state: State)
    requires node { state.node < length seen.old.items }
    requires new { is_seen seen.old.items state ≡ false }
    ensures each { length seen.new.items ≡ length seen.old.items }
    ensures only { (s : State) → is_seen seen.new.items s ≡ true → (is_seen seen.old.items s ≡ true) ⊎ (s ≡ state) }
    ensures fewer { unseen seen.new.items + 1 ≡ unseen seen.old.items }
{
    let met = seen[state.node as usize];
    seen[state.node as usize] = met.with(state.free, state.behind);
}
