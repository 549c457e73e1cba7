//! An edit as it is planned, by looks at the tree alone. All memory that it and undoing it take is
//! taken here.
ghost use Rattle.std.specs.Prelude.{◌≡◌, ◌+◌, ◌≤◌, ◌^◌, length, IfOk, IfErr};
ghost use Rattle.math_tree.specs.Numbering.{renumbered};
ghost use Rattle.math_tree.specs.Trees.{element_count};
ghost use Rattle.tree_edits.specs.Applying.{IsProperEdit, IsReason};
ghost use Rattle.tree_edits.specs.declared.edit.EditRefusal.TheVariants.{Memory as OutOfMemory};
ghost use Rattle.tree_edits.specs.Edits.{added, edited, named};
ghost use Rattle.tree_edits.specs.Inverses.{named_back};
ghost use Rattle.tree_edits.specs.Paths.{children_of, Finds, FitsAt};
ghost use Rattle.tree_edits.specs.Planning.{GivesBack, IsAccepted, IsAllowed, IsPlan, IsStep, Makes, PutsIn, SetsValue};

use crate::change::Change;
use crate::free_ids::is_taken;
use crate::numbering::renumber;
use crate::path::{Path, element_at};
use crate::reasons::own_reason;
use crate::spare::Spare;
use crate::totals::Totals;
use crate::undo::Undo;
use crate::{Edit, EditRefusal};
use fixed_units::{Memory, Room, Txt};
use math_tree::{Node, NodeId, Tree};
use splices::Splice;
use std::alloc::Global;

/// An edit of a tree with all that carrying it out takes.
#[derive(Drop)]
pub struct EditPlan {
    pub step: Step,
    /// The next id that the tree then has, and its totals.
    pub next_id: u64,
    pub elements: u32,
    pub bytes: u64,
    pub spare: Spare,
}

/// What is found by looks at a tree where nothing is against an edit: the way to the element that
/// it names, and the numbers of the edited tree; with the root for the meantime.
#[derive(Drop)]
pub struct Accepted {
    pub path: Path,
    pub totals: Totals,
    pub spare: Spare,
}

/// A change of the element at the end of a way, with its undo record.
#[derive(Drop)]
pub struct Step {
    pub path: Path,
    pub change: Change,
    pub undo: Undo,
    /// The element that is named by the edit which takes the change back.
    pub back: NodeId,
}

impl EditPlan {
    /// The plan of an edit, or the first reason against it, by the way to the element that it
    /// names.
    pub fn make(
        alloc: Global,
        tree: &Tree,
        found: Option<Path>,
        edit: Edit,
    ) -> Result<EditPlan, EditRefusal>
        requires proper { IsProperEdit edit }
        requires found { Finds (named edit) 1 tree.now.root found }
        ensures planned { IfOk result (IsPlan tree.now edit) }
        ensures refused { IfErr result (IsReason tree.now edit) }
    {
        match Accepted::make(alloc, tree, found, &edit) {
            Ok(accepted) => EditPlan::of_accepted(alloc, tree, accepted, edit),
            Err(refusal) => {
                drop(edit);
                Err(refusal)
            }
        }
    }

    /// The plan of an edit that nothing is against.
    fn of_accepted(
        alloc: Global,
        tree: &Tree,
        accepted: Accepted,
        edit: Edit,
    ) -> Result<EditPlan, EditRefusal>
        requires proper { IsProperEdit edit }
        requires accepted { IsAccepted tree.now edit accepted }
        ensures planned { IfOk result (IsPlan tree.now edit) }
        ensures refused { IfErr result (λ refusal. refusal ≡ OutOfMemory) }
    {
        let Accepted {
            path,
            totals,
            spare,
        } = accepted;
        Ok(EditPlan {
            step: Step::of_edit(alloc, tree, path, edit)?,
            next_id: totals.next_id,
            elements: totals.size.elements as u32,
            bytes: totals.size.bytes,
            spare,
        })
    }
}

impl Accepted {
    /// That of an edit, or the first reason against it. The edit is only lent: to let one go costs
    /// the proof of a function much at each place where it returns.
    fn make(
        alloc: Global,
        tree: &Tree,
        found: Option<Path>,
        edit: &Edit,
    ) -> Result<Accepted, EditRefusal>
        requires { Finds (named edit.now) 1 tree.now.root found }
        ensures accepted { IfOk result (IsAccepted tree.now edit.now) }
        ensures refused { IfErr result (IsReason tree.now edit.now) }
    {
        let Some(path) = found else {
            return Err(EditRefusal::UnknownNode);
        };
        let element = element_at(tree.root(), path.as_slice());
        if let Some(reason) = own_reason(edit, path.level(), element) {
            return Err(reason);
        }
        let totals = Totals::of_edited(tree, &path, element, edit);
        if let Some(reason) = totals.broken_limit() {
            return Err(reason);
        }
        if is_taken(alloc, tree, edit)? {
            return Err(EditRefusal::IdTaken);
        }
        let spare = Spare::make(alloc)?;
        Ok(Accepted {
            path,
            totals,
            spare,
        })
    }
}

impl Step {
    /// The change that an edit is, where the way leads to the element that it names.
    fn of_edit(alloc: Global, tree: &Tree, path: Path, edit: Edit) -> Result<Step, Memory>
        requires allowed { IsAllowed edit tree.now path }
        requires ids { tree.now.next_id + added edit ≤ 2 ^ 32 }
        ensures makes { IfOk result (Makes tree.now.root (edited tree.now edit).root) }
        ensures back { IfOk result (GivesBack tree.now edit) }
    {
        match edit {
            Edit::Text(_, text) => Step::make(alloc, tree, path, Change::SetText(text)),
            Edit::Attr(_, name, value) => {
                let element = element_at(tree.root(), path.as_slice());
                let change = value_change(alloc, element, name, value)?;
                Step::make(alloc, tree, path, change)
            }
            Edit::Insert(_, index, new) => {
                let element = element_at(tree.root(), path.as_slice());
                let new = numbered(new, tree.next_id());
                let change = child_change(alloc, element, index as usize, new)?;
                Step::make(alloc, tree, path, change)
            }
            Edit::Remove(_) => {
                let (over, place) = path.split();
                Step::make(alloc, tree, over, Change::Children(Splice::Take(place)))
            }
            Edit::Replace(_, new) => {
                let (over, place) = path.split();
                let new = numbered(new, tree.next_id());
                Step::make(
                    alloc,
                    tree,
                    over,
                    Change::Children(Splice::Swap(place, new)),
                )
            }
            Edit::Graft(_, index, new) => {
                let element = element_at(tree.root(), path.as_slice());
                let change = child_change(alloc, element, index as usize, new)?;
                Step::make(alloc, tree, path, change)
            }
            Edit::Swap(_, new) => {
                let (over, place) = path.split();
                Step::make(
                    alloc,
                    tree,
                    over,
                    Change::Children(Splice::Swap(place, new)),
                )
            }
        }
    }

    /// A change of the element at the end of a way, with its undo record.
    fn make(alloc: Global, tree: &Tree, path: Path, change: Change) -> Result<Step, Memory>
        requires { FitsAt change path tree.now.root }
        ensures { IfOk result (IsStep path change tree.now.root) }
    {
        let element = element_at(tree.root(), path.as_slice());
        let back = named_back(&change, element);
        match Undo::make(alloc, &change, element) {
            Ok(undo) => Ok(Step {
                path,
                change,
                undo,
                back,
            }),
            Err(memory) => {
                drop(change);
                Err(memory)
            }
        }
    }
}

/// The element that is named by the edit which takes a change of an element back: the one that the
/// change brings, and else that element itself.
fn named_back(change: &Change, element: &Node) -> NodeId
    ensures { result ≡ named_back change.now element.now }
{
    match change {
        Change::Children(Splice::Put(_, child, _) | Splice::Swap(_, child)) => child.head.id,
        _ => element.head.id,
    }
}

/// A value for an attribute of an element, with room for the attribute.
fn value_change(
    alloc: Global,
    element: &Node,
    name: Txt,
    value: Option<Txt>,
) -> Result<Change, Memory>
    ensures { IfOk result (SetsValue name value element.now) }
{
    let room = Room::make(alloc, element.head.attributes.as_slice().len() + 1)?;
    Ok(Change::SetValue(name, value, room))
}

/// A child for an element at a place, with room for it.
fn child_change(alloc: Global, element: &Node, index: usize, child: Node) -> Result<Change, Memory>
    requires { index ≤ length (children_of element.now) }
    ensures { IfOk result (PutsIn index child element.now) }
{
    let room = Room::make(alloc, element.children.as_slice().len() + 1)?;
    Ok(Change::Children(Splice::Put(index, child, room)))
}

/// An element with new ids from this one on.
fn numbered(mut element: Node, id: u64) -> Node
    requires { id + element_count element ≤ 2 ^ 32 }
    ensures { result ≡ renumbered id element }
{
    renumber(&mut element, id);
    element
}
