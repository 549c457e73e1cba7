//! An edit carried out on a tree, in place, and undone again.
ghost use Rattle.std.specs.Prelude.{◌≡◌, None, IfOk, IfErr, OnOk, OnErr};
ghost use Rattle.tree_edits.specs.Applying.{CanRestore, IsProperEdit, IsReason, Undoes, restored};
ghost use Rattle.tree_edits.specs.Edits.{edited, named, refusal_of};
ghost use Rattle.tree_edits.specs.Inverses.{edit_by, edit_of, inverse};
ghost use Rattle.tree_edits.specs.Paths.{Finds};
ghost use Rattle.tree_edits.specs.Planning.{planned, CanCarryOut, GivesBack};
ghost use Rattle.tree_edits.specs.declared.edit.Edit.{Edit as EditValue};

use crate::change::{Change, carry_out_at};
use crate::path::{Path, path_to};
use crate::planning::{EditPlan, Step};
use crate::spare::Spare;
use crate::{Edit, EditRefusal};
use math_tree::{NodeId, Tree};
use splices::Splice;
use std::alloc::Global;
use std::marker::Model;

/// What an edit took out of a tree: `restore` makes the tree of it that was there before.
#[derive(Debug, Drop)]
pub struct Taken {
    path: Path,
    change: Change,
    /// The element that is named by the edit which takes the edit back.
    back: NodeId,
    next_id: u64,
    elements: u32,
    bytes: u64,
    /// It stands in for the root while the elements are changed.
    spare: Spare,
}

impl Model for Taken {
    ghost use Rattle.std.specs.Coded.{codes};
    ghost use Rattle.tree_edits.specs.Applying.{TakenValue};
    ghost use Rattle.tree_edits.specs.contracts.change.Change as one;

    ghost Value = { TakenValue };

    ghost coded = { Prim.hlevel (codes, one.the_row.coded) };

    ghost view = { λ taken. record {
      path = taken.path;
      change = taken.change;
      back = taken.back;
      next_id = taken.next_id;
      elements = taken.elements;
      bytes = taken.bytes;
    } };
}

impl Taken {
    /// The inverse of the edit: it makes the elements of before, with their ids, of the tree as the
    /// edit left it. It takes no memory.
    pub fn into_edit(self) -> Edit
        ensures { result ≡ edit_of self }
    {
        edit_by(self.change, self.back)
    }
}

/// A change as the edit that names this element.
fn edit_by(change: Change, id: NodeId) -> Edit
    ensures { result ≡ edit_by change id }
{
    match change {
        Change::SetText(text) => Edit::Text(id, text),
        Change::SetValue(name, value, _) => Edit::Attr(id, name, value),
        Change::Children(Splice::Put(index, child, _)) => {
            Edit::Graft(id, index.min(u32::MAX as usize) as u32, child)
        }
        Change::Children(Splice::Swap(_, child)) => Edit::Swap(id, child),
        Change::Children(Splice::Stay | Splice::Take(_)) => Edit::Remove(id),
    }
}

/// Edits a tree. Where the edit is refused the tree stays as it is.
pub fn apply(alloc: Global, tree: &mut Tree, edit: Edit) -> Result<Taken, EditRefusal>
    requires proper { IsProperEdit edit }
    ensures accepted { OnOk result (refusal_of tree.old edit ≡ None) }
    ensures tree { OnOk result (tree.new ≡ edited tree.old edit) }
    ensures taken { IfOk result (λ taken. Undoes taken tree.new tree.old) }
    ensures back { IfOk result (λ taken. edit_of taken ≡ inverse tree.old edit) }
    ensures refused { IfErr result (IsReason tree.old edit) }
    ensures unchanged { OnErr result (tree.new ≡ tree.old) }
{
    let found = path_to(tree, edit.named());
    apply_at(alloc, tree, found, edit)
}

/// The same, by the way to the element that the edit names, or none where no element has its id.
pub fn apply_at(
    alloc: Global,
    tree: &mut Tree,
    found: Option<Path>,
    edit: Edit,
) -> Result<Taken, EditRefusal>
    requires proper { IsProperEdit edit }
    requires found { Finds (named edit) 1 tree.old.root found }
    ensures accepted { OnOk result (refusal_of tree.old edit ≡ None) }
    ensures tree { OnOk result (tree.new ≡ edited tree.old edit) }
    ensures taken { IfOk result (λ taken. Undoes taken tree.new tree.old) }
    ensures back { IfOk result (λ taken. edit_of taken ≡ inverse tree.old edit) }
    ensures refused { IfErr result (IsReason tree.old edit) }
    ensures unchanged { OnErr result (tree.new ≡ tree.old) }
{
    let plan = EditPlan::make(alloc, tree, found, edit)?;
    Ok(carry_out_plan(tree, plan))
}

/// Carries a plan out. It takes no memory.
fn carry_out_plan(tree: &mut Tree, plan: EditPlan) -> Taken
    requires { CanCarryOut plan tree.old }
    ensures tree { tree.new ≡ planned plan tree.old }
    ensures taken { Undoes result tree.new tree.old }
    ensures back { (edit : EditValue) → GivesBack tree.old edit plan.step →
        edit_of result ≡ inverse tree.old edit }
{
    let EditPlan {
        step,
        next_id,
        elements,
        bytes,
        spare,
    } = plan;
    let Step {
        path,
        change,
        undo,
        back,
    } = step;
    let before = (tree.next_id(), tree.elements(), tree.bytes());
    let mut root = tree.exchange(spare.into_root(), 2, 1, 4);
    let replaced = carry_out_at(&mut root, path.as_slice(), change);
    let stand_in = tree.exchange(root, next_id, elements, bytes);
    Taken {
        path,
        change: undo.completed(replaced),
        back,
        next_id: before.0,
        elements: before.1,
        bytes: before.2,
        spare: Spare::of(stand_in),
    }
}

/// Gives back the tree before an edit, with its next id. It takes no memory.
#[tactic(auto, using(crate::proofs::StandIn::stands_in))]
pub fn restore(tree: &mut Tree, taken: Taken)
    requires { CanRestore taken tree.old }
    ensures { tree.new ≡ restored taken tree.old }
{
    let Taken {
        path,
        change,
        next_id,
        elements,
        bytes,
        spare,
        back: _,
    } = taken;
    let mut root = tree.exchange(spare.into_root(), 2, 1, 4);
    drop(carry_out_at(&mut root, path.as_slice(), change));
    drop(tree.exchange(root, next_id, elements, bytes));
}
