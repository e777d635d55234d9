// Laws of the definitions: functions that do nothing, whose contracts are theorems.

ghost use Rattle.std.specs.Prelude.{◌≡◌, ◌↔◌, ℕ, true, List, length, Some, Contains, slice_get};
ghost use Rattle.std.specs.List.{list_all};
ghost use Rattle.std.specs.List.Sorted.{IsStrictlyIncreasing};
ghost use Rattle.path_laws.specs.Graph as effects;
ghost use Rattle.path_laws.specs.Graph.{IsWhole, exclude_count};
ghost use Rattle.exclusion_equations.specs.Excluded.{Sets, AreExact};
ghost use Rattle.c_tree.specs.declared.resolved.RStmt.{RStmt};
ghost use Rattle.c_tree.specs.declared.resolved.RFunction.{RFunction};
ghost use Rattle.c_tree.specs.declared.resolved.Resolved.{Resolved};
ghost use Rattle.c_tree.specs.Excludes.{excludes};
ghost use Rattle.c_tree.specs.Checked.{IsChecked, in_main, in_function};
ghost use Rattle.c_tree.specs.State.{State, first_state};
ghost use Rattle.c_tree.specs.Meaning.{meaning};
ghost use Rattle.flow_graph.specs.declared.node.NodeWork.{NodeWork};
ghost use Rattle.flow_graph.specs.declared.node.NodeWork.TheVariants as work;
ghost use Rattle.flow_graph.specs.Works.{works_of_body};
ghost use Rattle.flow_graph.specs.WorkRules.{work_keeps};
ghost use Rattle.flow_graph.specs.Run.{Graphs, Spot, graph_run, graph_of, graphs_of, at_entry, after, step};
ghost use Rattle.flow_graph.specs.GoesOn.{GoesOn};
ghost use Rattle.flow_graph.specs.Joined.{IsJoined};
ghost use Rattle.flow_graph.specs.MainGraph.{IsMainGraph};
ghost use Rattle.flow_graph.specs.Checkpoints.{checkpoints_of};

use exclusion_equations::same_graphs_have_the_same_sets;

/// The graphs of a program mean what its source means, event for event and tick for tick, for every input and bound.
pub fn graphs_mean_their_programs()
    ensures law { (p : Resolved) (input : List ℕ) (n : ℕ) → meaning p input n ≡ graph_run (graphs_of p) (at_entry (graphs_of p)) (first_state p input) n }
{}

/// A run of a graph is its first node and the run from there; and with more ticks it goes on from where it stood.
pub fn graph_runs_go_on()
    ensures step { (gs : Graphs) (x : Spot) (s : State) (n : ℕ) → graph_run gs x s n ≡ after (graph_run gs) (step gs x s n) }
    ensures law { (gs : Graphs) (x : Spot) (s : State) (n : ℕ) → GoesOn gs x s n }
{}

/// The graph of a body is joined: a test goes on to two of its nodes, the end to none, any other node to one; the last node alone is the end.
pub fn graphs_are_joined()
    ensures law { (locals : ℕ) (body : RStmt) → IsJoined (graph_of locals body) }
{}

/// The graph of `main` is whole: its edges and its entry name nodes, and its EXCLUDE_HERE have the numbers from 1 on, each once. It has as many as
/// the text.
pub fn main_graphs_are_whole()
    ensures law { (p : Resolved) (g : effects.Graph) → IsMainGraph p g → IsChecked p → IsWhole g }
    ensures excludes { (p : Resolved) (g : effects.Graph) → IsMainGraph p g → exclude_count g ≡ length (excludes p.main.body) }
{}

/// A program has one pair of excluded sets: what is exact for one graph of its `main` is so for each.
pub fn programs_have_one_pair_of_sets()
    ensures law { (p : Resolved) (g h : effects.Graph) (s : Sets) → IsMainGraph p g → IsMainGraph p h → AreExact g s → AreExact h s }
{
    same_graphs_have_the_same_sets();
}

/// What each node of a checked program does keeps the rules of the language: in `main`, and in each function.
pub fn works_keep_the_rules()
    ensures main { (p : Resolved) → IsChecked p → list_all (work_keeps (in_main p)) (works_of_body p.main.body) ≡ true }
    ensures functions { (p : Resolved) (f : ℕ) (g : RFunction) → IsChecked p → slice_get p.functions f ≡ Some g → list_all (work_keeps (in_function p g)) (works_of_body g.body) ≡ true }
{}

/// The checkpoints are exactly the nodes that are CHECKPOINT_HERE, and they rise.
pub fn checkpoints_are_exact()
    ensures exact { (ws : List NodeWork) (n : ℕ) → Contains (checkpoints_of ws) n ↔ (slice_get ws n ≡ Some work.Checkpoint) }
    ensures rising { (ws : List NodeWork) → IsStrictlyIncreasing (checkpoints_of ws) }
{}
