// Laws of the definitions: functions that do nothing, whose contracts are theorems.

ghost use Rattle.path_laws.specs.Graph.{Graph};
ghost use Rattle.exclusion_equations.specs.SameGraphs.{DoTheSame};
ghost use Rattle.exclusion_equations.specs.Excluded.{Sets, AreExact};

/// Sets that are exact for one graph are exact for each graph whose nodes do the same.
pub fn same_graphs_have_the_same_sets()
    ensures law { (g h : Graph) (s : Sets) → DoTheSame g h → AreExact g s → AreExact h s }
{}
