//! Laws of runs that speak of their events alone: functions that do nothing, whose contracts are theorems.
//!
//! What keeps a memory beside a run, as images do, needs no more of the analysis than these: which cells a run may have written at a node, and that
//! the excluded sets keep what they promise.

ghost use Rattle.std.specs.Prelude.{ℕ, ◌<◌, List};
ghost use Rattle.path_laws.specs.Graph as effects;
ghost use Rattle.c_tree.specs.declared.resolved.Resolved.{Resolved};
ghost use Rattle.c_tree.specs.Layout.{cell_count};
ghost use Rattle.c_tree.specs.Checked.{IsChecked};
ghost use Rattle.c_tree.specs.Meaning.{meaning};
ghost use Rattle.flow_graph.specs.MainGraph.{IsMainGraph};
ghost use Rattle.flow_graph.specs.RunWalks.{GoesOnWalk};
ghost use Rattle.flow_graph.specs.Spared.{IsSpared};

/// A run goes along a walk of the graph of `main` from its entry: it passes a checkpoint and executes a directive where it leaves their nodes, and each
/// cell that it writes while it stands at a node, inside calls too, is one that the node may write.
pub fn runs_go_along_walks()
    ensures law { (p : Resolved) (g : effects.Graph) (input : List ℕ) (n : ℕ) → IsChecked p → IsMainGraph p g → GoesOnWalk g (meaning p input n).events }
{}

/// Each run keeps what the excluded sets promise of it: a cell that is forgettable at a checkpoint is so at each later one until it is written; one that
/// is dead after a directive is forgettable at each checkpoint before the next directive; and one that is read-only after it is not written on the way.
pub fn runs_spare_excluded_cells()
    ensures law { (p : Resolved) (g : effects.Graph) (input : List ℕ) (n c : ℕ) → IsChecked p → IsMainGraph p g → c < cell_count p → IsSpared g (meaning p input n).events c }
{}
