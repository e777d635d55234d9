ghost use Rattle.std.specs.Prelude.{◌≡◌, ◌<◌, ◌≤◌, ◌+◌, ℕ, [], ◌∷◌, ◌++◌, ◌&&◌, ◌||◌, nat_le, nat_lt, length, IfOk, IfSome, IsNone};
ghost use Rattle.cell_sets.specs.Runs.{in_runs, IsRising};

use crate::cell_test::CellTest;
use crate::runs::Run;
use ckpt_base::NoMemory;
use std::alloc::Global;
use std::marker::Model;

/// How many runs a [`RunList`] has room for.
pub const RUN_LIST_ROOM: usize = 131_072;

/// A list of runs with room for [`RUN_LIST_ROOM`] of them, in which a push takes no memory. Contracts see the list.
#[derive(Drop)]
pub struct RunList {
    runs: Vec<Run>,
}

impl Model for RunList {
    ghost use Rattle.std.specs.Prelude.{List, ◌≤◌, vec_capacity};
    ghost use Rattle.cell_sets.specs.declared.runs.Run.{Run};
    ghost use Rattle.cell_sets.specs.declared.run_list.TheConstants.{RUN_LIST_ROOM};

    ghost Value = { List Run };

    ghost view = { λ l. l.runs.items };

    ghost invariant = { λ l. RUN_LIST_ROOM ≤ vec_capacity l.runs };
}

impl RunList {
    /// An empty list with its room reserved.
    pub fn new(alloc: Global) -> Result<RunList, NoMemory>
        ensures answer { IfOk result (λ l. l ≡ []) }
    {
        Ok(RunList {
            runs: Vec::with_capacity(alloc, RUN_LIST_ROOM)?,
        })
    }

    /// Appends one run; there must be room.
    pub fn push(&mut self, r: Run)
        requires room { length self.old < RUN_LIST_ROOM }
        ensures answer { self.new ≡ self.old ++ r ∷ [] }
    {
        let _ = self.runs.push(r);
    }

    /// Makes the list the rising runs of the cells below `cells` that pass the test, of which no two touch. It takes no memory.
    pub fn fill<T: CellTest>(&mut self, cells: u32, test: &T)
        requires few { cells ≤ 262144 }
        ensures rising { IsRising 0 self.new (cells + 1) }
        ensures exact { (q : ℕ) → in_runs self.new q ≡ (nat_lt q cells && T.passes test.now q) }
    {
        self.clear();
        let mut position = 0;
        'stretches: while position < cells {
            let (inside, next) = test.stretch_to(position, cells);
            self.append_if(inside, position, next);
            position = next;
        }
    }

    // Adds the cells from `from` to `to - 1` behind the runs, if they are to be kept.
    fn append_if(&mut self, keep: bool, from: u32, to: u32)
        requires some { from < to }
        requires few { to ≤ 262144 }
        requires rising { IsRising 0 self.old (from + 1) }
        ensures rising { IsRising 0 self.new (to + 1) }
        ensures added { (q : ℕ) → in_runs self.new q ≡ (in_runs self.old q || (keep && (nat_le from q && nat_lt q to))) }
    {
        if keep {
            self.append(from, to);
        }
    }

    // Adds the cells from `from` to `to - 1` behind the runs, and joins them with the last run where they touch it.
    fn append(&mut self, from: u32, to: u32)
        requires some { from < to }
        requires few { to ≤ 262144 }
        requires rising { IsRising 0 self.old (from + 1) }
        ensures rising { IsRising 0 self.new (to + 1) }
        ensures added { (q : ℕ) → in_runs self.new q ≡ (in_runs self.old q || (nat_le from q && nat_lt q to)) }
    {
        match self.pop() {
            None => self.push(Run {
                first: from,
                count: to - from,
            }),
            Some(last) => {
                if last.first + last.count == from {
                    self.push(Run {
                        first: last.first,
                        count: last.count + (to - from),
                    });
                } else {
                    self.push(last);
                    self.push(Run {
                        first: from,
                        count: to - from,
                    });
                }
            }
        }
    }

    // Takes the last run away.
    fn pop(&mut self) -> Option<Run>
        ensures none { IsNone result → (self.old ≡ []) × (self.new ≡ []) }
        ensures some { IfSome result (λ r. self.old ≡ self.new ++ r ∷ []) }
    {
        self.runs.pop()
    }

    /// Empties the list.
    pub fn clear(&mut self)
        ensures answer { self.new ≡ [] }
    {
        self.runs.clear();
    }

    /// Lends the runs.
    pub fn as_slice(&self) -> &[Run]
        ensures answer { result.now ≡ self.now }
    {
        &self.runs
    }
}
