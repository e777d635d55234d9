//! What is searched for, and the states of a walk on the way there.
ghost use Rattle.std.specs.Prelude.{◌≡◌, ◌<◌, length};
ghost use Rattle.exclusion_reason.specs.Ways.{turns_at, may_follow, stops_at, passes, after, is_end, start};

use path_laws::EffectGraph;

/// What a walk has to show of a cell.
#[derive(Clone, Copy)]
pub(crate) enum Aim {
    /// That a node behind a CHECKPOINT_HERE may read it.
    Need(u32),
    /// That a node before a CHECKPOINT_HERE may write it.
    Write(u32),
}

/// How far a walk has come.
#[derive(Clone, Copy)]
pub(crate) struct State {
    /// Its last node.
    pub node: u32,
    /// No EXCLUDE_HERE came after its first node, so that its turn may still come.
    pub free: bool,
    /// Its turn may lie behind, with nothing since that stops it.
    pub behind: bool,
}

impl State {
    /// The state of a walk with one node.
    pub(crate) fn start(node: u32) -> State
        ensures answer { result ≡ start node }
    {
        State {
            node,
            free: true,
            behind: false,
        }
    }
}

impl Aim {
    // Whether the node may be the turn.
    fn turns_at(self, graph: &EffectGraph, n: u32) -> bool
        requires node { n < length graph.now.nodes }
        ensures answer { result ≡ turns_at graph.now self n }
    {
        match self {
            Aim::Need(_) => graph.mark(n).is_checkpoint(),
            Aim::Write(c) => graph.writes(n).holds(c) && !graph.mark(n).is_exclude(),
        }
    }

    // Whether the node may stand behind the turn.
    fn may_follow(self, graph: &EffectGraph, n: u32) -> bool
        requires node { n < length graph.now.nodes }
        ensures answer { result ≡ may_follow graph.now self n }
    {
        match self {
            Aim::Need(_) => true,
            Aim::Write(_) => !graph.mark(n).is_exclude(),
        }
    }

    // Whether a walk may not go on from the node behind the turn.
    fn stops_at(self, graph: &EffectGraph, n: u32) -> bool
        requires node { n < length graph.now.nodes }
        ensures answer { result ≡ stops_at graph.now self n }
    {
        match self {
            Aim::Need(c) => graph.kills(n).holds(c),
            Aim::Write(_) => false,
        }
    }

    // Whether the node after these may lie behind the turn.
    fn passes(self, graph: &EffectGraph, state: State) -> bool
        requires node { state.node < length graph.now.nodes }
        ensures answer { result ≡ passes graph.now self state }
    {
        state.free && self.turns_at(graph, state.node)
            || state.behind && !self.stops_at(graph, state.node)
    }

    /// The state of a walk that goes on to node `m`.
    pub(crate) fn after(self, graph: &EffectGraph, state: State, m: u32) -> State
        requires from { state.node < length graph.now.nodes }
        requires to { m < length graph.now.nodes }
        ensures answer { result ≡ after graph.now self state m }
    {
        State {
            node: m,
            free: state.free && !graph.mark(m).is_exclude(),
            behind: self.may_follow(graph, m) && self.passes(graph, state),
        }
    }

    /// Whether a walk in this state shows what it has to.
    pub(crate) fn is_end(self, graph: &EffectGraph, state: State) -> bool
        requires node { state.node < length graph.now.nodes }
        ensures answer { result ≡ is_end graph.now self state }
    {
        state.behind
            && match self {
                Aim::Need(c) => graph.reads(state.node).holds(c),
                Aim::Write(_) => graph.mark(state.node).is_checkpoint(),
            }
    }
}
