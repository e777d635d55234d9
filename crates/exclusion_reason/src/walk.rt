ghost use Rattle.std.specs.Prelude.{◌≡◌};

use std::marker::Model;

/// A walk, seen as the list of its nodes.
#[derive(Drop)]
pub struct Walk {
    nodes: Vec<u32>,
}

impl Model for Walk {
    ghost use Rattle.std.specs.Prelude.{List, ℕ};

    ghost Value = { List ℕ };

    ghost view = { λ w. w.nodes.items };
}

impl Walk {
    pub(crate) fn of(nodes: Vec<u32>) -> Walk
        ensures answer { result ≡ nodes.items }
    {
        Walk { nodes }
    }

    /// The nodes, from the EXCLUDE_HERE on.
    pub fn nodes(&self) -> &[u32]
        ensures answer { result.now ≡ self.now }
    {
        &self.nodes
    }
}
