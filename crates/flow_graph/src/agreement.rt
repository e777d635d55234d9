// Laws of runs from states that agree: functions that do nothing, whose contracts are theorems.
//
// Two states agree before a node of `main` where they are the same but for words of cells that no walk wants from there: each walk from the node
// that comes to a read of such a cell has, before it, a node that kills the cell. While a call is active, the cells count that were wanted before
// the node of `main` at which it was made, and those written since.

ghost use Rattle.std.specs.Prelude.{◌≡◌, ℕ, ◌+◌, ◌<◌, true, List, [], ◌++◌, length, None, Some, Ok, slice_get};
ghost use Rattle.std.specs.List.{Contains};
ghost use Rattle.ckpt_base.specs.Event.{Event};
ghost use Rattle.ckpt_base.specs.declared.ending.Ending.TheVariants.{Going};
ghost use Rattle.c_tree.specs.declared.resolved.Resolved.{Resolved};
ghost use Rattle.c_tree.specs.declared.resolved.RExpr.{RExpr};
ghost use Rattle.c_tree.specs.declared.resolved.RFunction.{RFunction};
ghost use Rattle.c_tree.specs.Layout.{objects, cell_count};
ghost use Rattle.c_tree.specs.Kinds.{kind};
ghost use Rattle.c_tree.specs.Checked.{IsChecked, in_main, in_function};
ghost use Rattle.c_tree.specs.State.{State, value, first_state};
ghost use Rattle.alias_sets.specs.Points.{MayGive};
ghost use Rattle.path_laws.specs.Graph as effects;
ghost use Rattle.path_laws.specs.Graph.{has_edge, is_checkpoint};
ghost use Rattle.path_laws.specs.Forgettable.{IsForgettable};
ghost use Rattle.flow_graph.specs.MainGraph.{IsMainGraph};
ghost use Rattle.flow_graph.specs.Run.{Graphs, Spot, spot, graphs_of, at_entry, step, graph_run};
ghost use Rattle.flow_graph.specs.Agreement.{Place, outside, wrote, NamesObject, KeepsPointers, AgreeAt, EndAlike, StepsAgree, ComesTo, ComesAlike, StandsAfter, StandAlike, AlikeAfter};

/// From two states that agree, one step ends both runs alike, or both go on alike, to states that agree again.
pub fn steps_agree()
    ensures law { (p : Resolved) (g : effects.Graph) (l : Place) (x : Spot) (s t : State) (n : ℕ) → IsChecked p → IsMainGraph p g → AgreeAt p g l x s t → StepsAgree p g l x s (step (graphs_of p) x s n) (step (graphs_of p) x t n) }
{}

/// From two states that agree, runs have the same events, the same ending and the same ticks. The states that the same steps come to agree, and so
/// do those at which both runs stand for want of a tick. What counts at the end counted at the beginning, or was written on the way.
pub fn runs_agree()
    ensures law { (p : Resolved) (g : effects.Graph) (l : Place) (x : Spot) (s t : State) (n : ℕ) → IsChecked p → IsMainGraph p g → AgreeAt p g l x s t → EndAlike (graph_run (graphs_of p) x s n) (graph_run (graphs_of p) x t n) }
    ensures comes { (p : Resolved) (g : effects.Graph) (l : Place) (x y : Spot) (s t u : State) (k n m : ℕ) → IsChecked p → IsMainGraph p g → AgreeAt p g l x s t → ComesTo (graphs_of p) k x s n y u m → ComesAlike p g l k x s t n y u m }
    ensures stands { (p : Resolved) (g : effects.Graph) (l : Place) (x : Spot) (s t : State) (n : ℕ) → IsChecked p → IsMainGraph p g → AgreeAt p g l x s t → (graph_run (graphs_of p) x s n).ending ≡ Going → StandAlike p g x s t n }
{}

/// A run goes on from where its steps come to; with more ticks they come there too; and a run that wants a tick comes by steps to where it stands.
pub fn steps_make_runs()
    ensures run { (gs : Graphs) (k : ℕ) (x y : Spot) (s u : State) (n m : ℕ) → ComesTo gs k x s n y u m → graph_run gs x s n ≡ graph_run gs y u m }
    ensures more { (gs : Graphs) (k : ℕ) (x y : Spot) (s u : State) (n m d : ℕ) → ComesTo gs k x s n y u m → ComesTo gs k x s (n + d) y u (m + d) }
    ensures stands { (gs : Graphs) (x : Spot) (s : State) (n : ℕ) → (graph_run gs x s n).ending ≡ Going → StandsAfter gs x s n }
{}

/// The state in which a checked program starts keeps its pointers at the entry of `main`.
pub fn first_states_agree()
    ensures law { (p : Resolved) (g : effects.Graph) (input : List ℕ) → IsChecked p → AgreeAt p g (outside (at_entry (graphs_of p)).node) (at_entry (graphs_of p)) (first_state p input) (first_state p input) }
{}

/// What an image has to keep: a state that is the run's own but for words of cells that are forgettable at a node of `main` agrees with it after the
/// node, outside calls.
pub fn images_agree()
    ensures law { (p : Resolved) (g : effects.Graph) (l : Place) (m n : ℕ) (s t : State) → has_edge g m n ≡ true → AgreeAt p g l (spot None n []) s s → AlikeAfter p g m s t → AgreeAt p g l (spot None n []) s t }
{}

/// A cell that is forgettable at a node of `main` is forgettable at a later `CHECKPOINT_HERE` too, where no event on the way from behind the node wrote
/// it.
pub fn forgettable_cells_stay()
    ensures law { (p : Resolved) (g : effects.Graph) (l : Place) (m n j : ℕ) (s u : State) (k i a : ℕ) (es : List Event) (c : ℕ) → IsChecked p → IsMainGraph p g → c < cell_count p → has_edge g m n ≡ true → AgreeAt p g l (spot None n []) s s → ComesTo (graphs_of p) k (spot None n []) s i (spot None j []) u a → is_checkpoint g j ≡ true → u.events ≡ s.events ++ es → (Contains (wrote es) c → ⊥) → IsForgettable g c m → IsForgettable g c j }
{}

/// A pointer expression of `main`, or of a function, names no object but one that the text lets it give, in each state of the program whose pointers
/// keep to what they may hold.
pub fn pointers_come_from_their_text()
    ensures main { (p : Resolved) (s : State) (e : RExpr) (a o : ℕ) → IsChecked p → s.variables.objects ≡ objects p → length s.variables.cells ≡ cell_count p → KeepsPointers p (λ c. Unit {0}) None s → kind (in_main p) e ≡ Some true → value e s.variables ≡ Ok a → NamesObject p a o → MayGive p None e o }
    ensures functions { (p : Resolved) (f : ℕ) (g : RFunction) (s : State) (e : RExpr) (a o : ℕ) → IsChecked p → slice_get p.functions f ≡ Some g → s.variables.objects ≡ objects p → length s.variables.cells ≡ cell_count p → KeepsPointers p (λ c. Unit {0}) (Some f) s → kind (in_function p g) e ≡ Some true → value e s.variables ≡ Ok a → NamesObject p a o → MayGive p (Some f) e o }
{}
