ghost use Rattle.std.specs.Prelude.{◌≡◌, ◌≤◌, ◌+◌, ◌-◌, ◌^◌, [], min, true, false, length, Err, IfErr, IfOk, None as NoReason, OnErr, OnOk};
ghost use Rattle.box_pool.specs.Runs.{cell_count};
ghost use Rattle.fixed_units.specs.declared.refusal.LayRefusal.TheVariants.{Range};
ghost use Rattle.tree_edits.specs.Applying.{IsProperEdit, IsReason};
ghost use Rattle.tree_edits.specs.Edits.{edited, refusal_of};
ghost use Rattle.tree_edits.specs.Inverses.{edit_of, inverse};
ghost use Rattle.layout_model.specs.Layout.{is_tree_in_range, laid_tree};
ghost use Rattle.kept_results.specs.Ends.{fresh_count, kept_count, sealed};
ghost use Rattle.kept_results.specs.Grown.{GrownByPairs};
ghost use Rattle.kept_results.specs.Kept.{Keeps};
ghost use Rattle.kept_results.specs.Passes.{Needs};
ghost use Rattle.kept_laid.specs.Boxes.{box_in};
ghost use Rattle.kept_edits.specs.Blank.{blank};
ghost use Rattle.kept_edits.specs.Passed.{TakesMissing};
ghost use Rattle.kept_sweep.specs.Swept.{CountsNeeded, IsPartOf};
ghost use Rattle.memo_tree.specs.Counted.{EntriesStay, MissingIsCounted, TakesVisits};
ghost use Rattle.memo_tree.specs.Marked.{EachStays, MarksPath, NewIsBlank};
ghost use Rattle.memo_tree.specs.Reversing.{CanReverse, Reverses, reversed};
ghost use Rattle.memo_tree.specs.States.{Changed, IsIn, Passed, Sealed, Stopped, without_pass};
ghost use Rattle.memo_tree.specs.Trees.{IsSwept, context_of, root_box};

use crate::following::follow;
use crate::notes::Notes;
use crate::reversal::Reversal;
use crate::root::context_of;
use crate::start::start_layout;
use fixed_units::{LayRefusal, MathBox, Memory, Steps};
use font_metrics::Metrics;
use kept_edits::{blank, way_along};
use kept_laid::{box_of, count_or_most, laid_of, root_box};
use kept_relay::relay_element;
use kept_results::{Memo, seal, undo_pass};
use kept_sweep::sweep_stored;
use layout_model::{Context, Finish, Laid};
use math_tree::{Node, NodeId, Tree};
use outcome_cells::Store;
use std::alloc::Global;
use std::marker::Model;
use std::sync::ledger::Ledger;
use tree_edits::{Edit, EditRefusal, apply_at, restore};

/// A tree with the layouts that are kept of it and of its elements, the store in which their cells
/// lie, and the metrics of their font.
///
/// It is in one of four states (`specs/States.antt`): a pass, `relay`, leads from changed to passed
/// or, where it is refused, to stopped; `seal` ends a pass that was done, and `undo_pass` takes one
/// back.
#[derive(Drop)]
pub struct MemoTree {
    tree: Tree,
    metrics: Metrics,
    memo: Memo,
    /// The cells of the layouts that are kept, and of some that were.
    store: Store,
    /// Whether exactly the layouts are kept that the one of the tree needs, and no cells of others,
    /// so that a sweep drops nothing.
    swept: bool,
    /// It finds elements, and no contract of this type speaks of it.
    notes: Notes,
}

impl Model for MemoTree {
    ghost use Rattle.std.specs.Coded.{codes};
    ghost use Rattle.math_tree.specs.contracts.node.Node as node;
    ghost use Rattle.kept_results.specs.contracts.memo.Memo as kept;
    ghost use Rattle.memo_tree.specs.Trees.{MemoTreeValue};

    ghost Value = { MemoTreeValue };

    ghost coded = { Prim.hlevel (codes, node.the_row.coded, kept.the_row.coded) };

    ghost use Rattle.memo_tree.specs.Trees.{IsHeld};

    ghost view = { λ laid. record {
      tree = laid.tree;
      metrics = laid.metrics;
      memo = laid.memo;
      store = laid.store;
    } };

    ghost invariant = { λ laid. IsHeld (record {
      tree = laid.tree;
      metrics = laid.metrics;
      memo = laid.memo;
      store = laid.store;
    }) laid.swept };
}

impl MemoTree {
    /// Takes a tree and metrics over, and keeps no layout yet.
    pub fn make(alloc: Global, tree: Tree, metrics: Metrics) -> Result<MemoTree, Memory>
        ensures tree { IfOk result (λ laid. laid.tree ≡ tree) }
        ensures metrics { IfOk result (λ laid. laid.metrics ≡ metrics) }
        ensures memo { IfOk result (λ laid. laid.memo ≡ blank tree.root) }
        ensures store { IfOk result
            (λ laid. laid.store ≡ record { runs = []; checkpoint = NoReason }) }
        ensures changed { IfOk result (IsIn Changed) }
    {
        match blank(alloc, tree.root()) {
            Ok(memo) => Ok(MemoTree {
                tree,
                metrics,
                memo,
                store: Store::make(alloc),
                swept: false,
                notes: Notes::none(),
            }),
            Err(refusal) => {
                // Given up by calls, so that it isn't proved here how.
                tree.discard();
                metrics.discard();
                Err(refusal)
            }
        }
    }

    /// Takes a tree and metrics over, and lays the tree out. Exactly the layouts are kept that the
    /// one of the tree needs, and each ticks a step. It is refused with `Range` exactly where a
    /// number of one of them can't be stored; then both are dropped.
    pub fn start<F: Finish, L: Ledger>(
        alloc: Global,
        tree: Tree,
        metrics: Metrics,
        steps: &mut Steps<L>,
    ) -> Result<MemoTree, LayRefusal>
        ensures tree { IfOk result (λ laid. laid.tree ≡ tree) }
        ensures metrics { IfOk result (λ laid. laid.metrics ≡ metrics) }
        ensures swept { IfOk result IsSwept }
        ensures few { IfOk result (λ laid. kept_count laid.memo ≤ 131_072) }
        ensures steps { CountsNeeded metrics tree.root (context_of metrics tree) steps.old
            steps.new }
        ensures visits { TakesVisits metrics tree steps.old steps.new }
        ensures all { IfOk result (λ laid. steps.new ≡ steps.old + kept_count laid.memo) }
        ensures fit { IfOk result (IsIn Sealed) }
        ensures range { result ≡ Err Range → is_tree_in_range metrics tree ≡ false }
    {
        let context = context_of(&tree, &metrics);
        let mut store = Store::make(alloc);
        let made = start_layout::<F, _>(alloc, tree.root(), &mut store, &context, &metrics, steps);
        // Told, so that what is let go of isn't proved through all its parts at each way out.
        drop(context);
        match made {
            Ok(memo) => Ok(MemoTree {
                tree,
                metrics,
                memo,
                store,
                swept: true,
                notes: Notes::none(),
            }),
            Err(refusal) => {
                drop(store);
                tree.discard();
                metrics.discard();
                Err(refusal)
            }
        }
    }

    /// Edits the tree, and changes what is kept beside it: each element that stays has the entries
    /// that it had, with their runs, nothing is kept of new elements, and just the elements on the
    /// path of the edit are marked. Where the edit is refused, all stays as it is.
    pub fn change(&mut self, alloc: Global, edit: Edit) -> Result<Reversal, EditRefusal>
        requires proper { IsProperEdit edit }
        requires sealed { IsIn Sealed self.old }
        ensures accepted { OnOk result (refusal_of self.old.tree edit ≡ NoReason) }
        ensures tree { OnOk result (self.new.tree ≡ edited self.old.tree edit) }
        ensures metrics { self.new.metrics ≡ self.old.metrics }
        ensures store { self.new.store ≡ self.old.store }
        ensures changed { OnOk result (IsIn Changed self.new) }
        ensures new { OnOk result (NewIsBlank self.old edit self.new) }
        ensures marked { OnOk result (MarksPath self.old edit self.new) }
        ensures kept { OnOk result (EachStays self.old edit self.new) }
        ensures stays { OnOk result (EntriesStay self.old edit self.new) }
        ensures counted { OnOk result (MissingIsCounted self.old edit self.new) }
        ensures fewer { OnOk result (kept_count self.new.memo ≤ kept_count self.old.memo) }
        ensures reversal { IfOk result (λ reversal. Reverses reversal self.new self.old) }
        ensures back { IfOk result (λ reversal. edit_of reversal.taken
            ≡ inverse self.old.tree edit) }
        ensures refused { IfErr result (IsReason self.old.tree edit) }
        ensures unchanged { OnErr result (self.new ≡ self.old) }
    {
        let path = match self.notes.find(alloc, &self.tree, edit.named()) {
            Ok(path) => path,
            Err(Memory) => {
                // Dropped by a call, so that this function's proof doesn't go through all parts.
                drop(edit);
                return Err(EditRefusal::Memory);
            }
        };
        let found = way_along(&self.tree, &path, &edit);
        let taken = apply_at(alloc, &mut self.tree, path, edit)?;
        self.swept = false;
        let Some(way) = found else {
            unreachable!();
        };
        match follow(
            alloc,
            self.tree.root(),
            &mut self.memo,
            &mut self.notes,
            &way,
        ) {
            Ok(back) => Ok(Reversal::of(taken, way.path, back)),
            Err(_) => {
                restore(&mut self.tree, taken);
                Err(EditRefusal::Memory)
            }
        }
    }

    /// Takes a change back. It takes no memory.
    pub fn undo_change(&mut self, reversal: Reversal)
        requires changed { IsIn Changed self.old }
        requires fits { CanReverse reversal self.old }
        ensures { self.new ≡ reversed reversal self.old }
    {
        self.swept = false;
        reversal.take_back(&mut self.tree, &mut self.memo);
    }

    /// Lays the tree out as far as its layouts aren't kept, each of which ticks a step and comes to
    /// the store; those that are kept stay, with their runs. It is refused with `Range` exactly
    /// where a number of a layout that the one of the tree needs can't be stored.
    pub fn relay<F: Finish, L: Ledger>(
        &mut self,
        alloc: Global,
        steps: &mut Steps<L>,
    ) -> Result<(), LayRefusal>
        requires changed { IsIn Changed self.old }
        ensures tree { self.new.tree ≡ self.old.tree }
        ensures metrics { self.new.metrics ≡ self.old.metrics }
        ensures stopped { IsIn Stopped self.new }
        ensures passed { OnOk result (IsIn Passed self.new) }
        ensures before { without_pass self.new ≡ self.old }
        ensures steps { TakesMissing self.old.metrics self.old.tree.root
            (context_of self.old.metrics self.old.tree) self.old.memo steps.old steps.new }
        ensures keeps { Keeps self.old.memo self.new.memo }
        ensures all { OnOk result (steps.new + kept_count self.old.memo ≡
            steps.old + kept_count self.new.memo) }
        ensures runs { OnOk result (length self.new.store.runs + steps.old ≡
            length self.old.store.runs + steps.new) }
        ensures cells { OnOk result (GrownByPairs self.old.metrics self.old.tree.root
            (Needs self.old.metrics self.old.tree.root (context_of self.old.metrics self.old.tree))
            self.old.store.runs self.new.store.runs) }
        ensures fit { OnOk result (is_tree_in_range self.old.metrics self.old.tree ≡ true) }
        ensures range { result ≡ Err Range →
            is_tree_in_range self.old.metrics self.old.tree ≡ false }
    {
        self.swept = false;
        let context = context_of(&self.tree, &self.metrics);
        self.store.begin();
        relay_element::<F, _>(
            alloc,
            self.tree.root(),
            &mut self.memo,
            &mut self.store,
            &context,
            &self.metrics,
            steps,
        )?;
        Ok(())
    }

    /// Takes a pass back: what it made is dropped, and what it made anew is what it was, in its run
    /// of before. It goes only where the edit and the pass went, and takes no memory.
    pub fn undo_pass(&mut self)
        requires stopped { IsIn Stopped self.old }
        ensures before { self.new ≡ without_pass self.old }
        ensures changed { IsIn Changed self.new }
    {
        self.swept = false;
        undo_pass(&mut self.memo);
        self.store.rollback();
    }

    /// Ends a pass that was done: layouts of elements as they were before it are dropped. It takes
    /// no memory, and says how many layouts the pass made, and 2^64 - 1 where there are more.
    pub fn seal(&mut self) -> usize
        requires passed { IsIn Passed self.old }
        ensures tree { self.new.tree ≡ self.old.tree }
        ensures metrics { self.new.metrics ≡ self.old.metrics }
        ensures memo { self.new.memo ≡ sealed self.old.memo }
        ensures runs { self.new.store.runs ≡ self.old.store.runs }
        ensures sealed { IsIn Sealed self.new }
        ensures made { result ≡ min (fresh_count self.old.memo) (2 ^ 64 - 1) }
    {
        self.swept = false;
        self.store.commit();
        seal(&mut self.memo)
    }

    /// Drops all layouts but those that the one of the tree needs, and all cells but theirs, whose
    /// runs stay. Where nothing else is there, it goes over none. Where memory is refused, all
    /// stays as it is.
    pub fn sweep(&mut self, alloc: Global) -> Result<(), Memory>
        requires sealed { IsIn Sealed self.old }
        ensures tree { self.new.tree ≡ self.old.tree }
        ensures metrics { self.new.metrics ≡ self.old.metrics }
        ensures sealed { OnOk result (IsIn Sealed self.new) }
        ensures swept { OnOk result (IsSwept self.new) }
        ensures part { OnOk result (IsPartOf self.new.memo self.old.memo) }
        ensures few { OnOk result (kept_count self.new.memo ≤ 131_072) }
        ensures unchanged { OnErr result (self.new ≡ self.old) }
    {
        if self.swept {
            return Ok(());
        }
        let context = context_of(&self.tree, &self.metrics);
        sweep_stored(
            alloc,
            self.tree.root(),
            &mut self.memo,
            &mut self.store,
            &context,
            &self.metrics,
        )?;
        self.swept = true;
        Ok(())
    }

    /// Gives the tree up, with the metrics and all that is kept. A crate that calls this needn't
    /// prove how.
    pub fn discard(self) {
        drop(self);
    }

    /// The layout of the tree with all elements in flow, read off what is kept.
    pub fn laid(&self, alloc: Global) -> Result<Laid, Memory>
        requires sealed { IsIn Sealed self.now }
        ensures { IfOk result (λ all. all ≡ laid_tree self.now.metrics self.now.tree) }
    {
        let context = context_of(&self.tree, &self.metrics);
        laid_of(alloc, self.tree.root(), &self.memo, &self.store, &context)
    }

    /// The box of the root. It takes no memory.
    pub fn root_box(&self) -> MathBox
        requires sealed { IsIn Sealed self.now }
        ensures { result ≡ root_box self.now }
    {
        let context = context_of(&self.tree, &self.metrics);
        root_box(&self.memo, &self.store, &context)
    }

    /// The box of the element with an id, as the layout of the tree has it; none where no element
    /// in flow has the id. It takes no memory.
    pub fn box_of(&self, id: NodeId) -> Option<MathBox>
        requires sealed { IsIn Sealed self.now }
        ensures { result ≡ box_in id (laid_tree self.now.metrics self.now.tree) }
    {
        let context = context_of(&self.tree, &self.metrics);
        box_of(self.tree.root(), &self.memo, &self.store, &context, id)
    }

    /// How many layouts are kept, and 2^64 - 1 where there are more. It takes no memory.
    pub fn kept(&self) -> usize
        ensures { result ≡ min (kept_count self.now.memo) (2 ^ 64 - 1) }
    {
        count_or_most(&self.memo)
    }

    /// How many cells the store has, those of layouts that aren't kept any more among them. It
    /// takes no memory.
    pub fn cells(&self) -> usize
        ensures { result ≡ cell_count self.now.store.runs }
    {
        self.store.cells()
    }

    /// The context in which the root is laid out.
    pub fn context(&self) -> Context
        ensures { result ≡ context_of self.now.metrics self.now.tree }
    {
        context_of(&self.tree, &self.metrics)
    }

    /// What is kept of the tree.
    pub fn memo(&self) -> &Memo
        ensures { result.now ≡ self.now.memo }
    {
        &self.memo
    }

    /// The store in which the cells of what is kept lie.
    pub fn store(&self) -> &Store
        ensures { result.now ≡ self.now.store }
    {
        &self.store
    }

    /// The tree.
    pub fn tree(&self) -> &Tree
        ensures { result.now ≡ self.now.tree }
    {
        &self.tree
    }

    /// The metrics of the font.
    pub fn metrics(&self) -> &Metrics
        ensures { result.now ≡ self.now.metrics }
    {
        &self.metrics
    }
}
