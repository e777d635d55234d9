//! Which objects each variable may hold.

ghost use Rattle.std.specs.Prelude.{◌≡◌, ◌↔◌, ◌⊎◌, ◌<◌, ◌++◌, ◌∷◌, [], ℕ, IfOk, OnOk, IsTrue, Contains, true, length};
ghost use Rattle.std.specs.List.Sorted.{IsStrictlyIncreasing};
ghost use Rattle.cell_sets.specs.Sets.{has};
ghost use Rattle.alias_sets.specs.Numbers.{AreApart, AllNumbered};
ghost use Rattle.alias_sets.specs.Points.{Holds, AreChains, ArePointsOf};

use crate::flows::{Flow, PointerVar};
use crate::nodes::{edges_of, empty_rows, goals_of, width_of};
use crate::numbering::{number_of, variables_of};
use crate::statements::flows_of;
use c_tree::Checked;
use cell_sets::BitRow;
use ckpt_base::NoMemory;
use indexmap::IndexSet;
use path_laws::reaching;
use std::alloc::{AllocError, Global};
use std::marker::Model;

/// The may-point sets of a program: for each variable the objects that a pointer in it may name.
#[derive(Drop)]
pub struct Points {
    variables: IndexSet<PointerVar>,
    rows: Vec<BitRow>,
}

impl Model for Points {
    ghost use Rattle.std.specs.Prelude.{◌≡◌, length};
    ghost use Rattle.alias_sets.specs.Points.{PointsView};
    ghost use Rattle.alias_sets.specs.Numbers.{AreApart};

    ghost Value = { PointsView };

    ghost view = { λ p. record { variables = p.variables.keys; rows = p.rows.items } };

    ghost invariant = { λ p. AreApart p.variables.keys × (length p.rows.items ≡ length p.variables.keys) };
}

impl Points {
    /// Whether the variable may hold a pointer to the object: whether some chain of declarations, assignments, arguments, returned
    /// values and call results leads from the object's address to it.
    pub fn holds(&self, variable: PointerVar, object: u32) -> bool
        ensures answer { IsTrue result ↔ Holds self.now variable object }
    {
        match number_of(&self.variables, variable) {
            None => false,
            Some(number) => row_has(&self.rows[number], object),
        }
    }

    /// The objects that the variable may hold a pointer to, rising.
    pub fn objects(&self, alloc: Global, variable: PointerVar) -> Result<Vec<u32>, NoMemory>
        ensures rising { IfOk result (λ objects. IsStrictlyIncreasing objects.items) }
        ensures answer { IfOk result (λ objects. (o : ℕ) → Contains objects.items o ↔ Holds self.now variable o) }
    {
        match number_of(&self.variables, variable) {
            None => Ok(Vec::new(alloc)),
            Some(number) => members(alloc, &self.rows[number]),
        }
    }
}

fn row_has(row: &BitRow, object: u32) -> bool
    ensures answer { result ≡ has row.now object }
{
    object < row.width() && row.get(object)
}

/// Adds a number that is greater than all before, where it is wanted.
fn push_if(objects: &mut Vec<u32>, object: u32, wanted: bool) -> Result<(), AllocError>
    requires below { (o : ℕ) → Contains objects.old.items o → o < object }
    requires rising { IsStrictlyIncreasing objects.old.items }
    ensures rising { OnOk result (IsStrictlyIncreasing objects.new.items) }
    ensures answer { OnOk result ((o : ℕ) → Contains objects.new.items o ↔ (Contains objects.old.items o ⊎ ((wanted ≡ true) × (o ≡ object)))) }
{
    if !wanted {
        return Ok(());
    }
    objects.push(object)?;
    Ok(())
}

/// The numbers of a row, rising.
fn members(alloc: Global, row: &BitRow) -> Result<Vec<u32>, NoMemory>
    ensures rising { IfOk result (λ objects. IsStrictlyIncreasing objects.items) }
    ensures answer { IfOk result (λ objects. (o : ℕ) → Contains objects.items o ↔ (has row.now o ≡ true)) }
{
    let mut objects = Vec::new(alloc);
    'objects: for object in 0..row.width() {
        push_if(&mut objects, object, row.get(object))?;
    }
    Ok(objects)
}

/// For each variable the objects from whose address a chain of flows leads to it.
fn rows_of(
    alloc: Global,
    variables: &IndexSet<PointerVar>,
    flows: &[Flow],
) -> Result<Vec<BitRow>, NoMemory>
    requires apart { AreApart variables.now.keys }
    requires numbered { AllNumbered variables.now.keys flows.now }
    ensures len { IfOk result (λ rows. length rows.items ≡ length variables.now.keys) }
    ensures answer { IfOk result (λ rows. AreChains flows.now (record { variables = variables.now.keys; rows = rows.items })) }
{
    let width = width_of(flows)?;
    let edges = edges_of(alloc, variables, flows)?;
    let goals = goals_of(alloc, variables, flows, width)?;
    let stops = empty_rows(alloc, goals.len(), width)?;
    let rows = reaching(alloc, &edges, &goals, &stops, width)?;
    Ok(rows)
}

/// Finds for each variable the objects from whose address a chain of the flows leads to it.
pub(crate) fn solve(alloc: Global, flows: &[Flow]) -> Result<Points, NoMemory>
    ensures answer { IfOk result (λ points. AreChains flows.now points) }
{
    let variables = variables_of(alloc, flows)?;
    let rows = rows_of(alloc, &variables, flows)?;
    Ok(Points { variables, rows })
}

/// Finds for each variable of a program the objects that it may hold.
pub fn find_points(alloc: Global, program: &Checked) -> Result<Points, NoMemory>
    ensures answer { IfOk result (λ points. ArePointsOf program.now points) }
{
    let flows = flows_of(alloc, program.tree())?;
    solve(alloc, flows.as_slice())
}
