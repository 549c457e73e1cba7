ghost use Rattle.std.specs.Prelude.{◌≡◌, ◌≤◌, ◌≢◌, ◌⊎◌, ◌+◌, ◌*◌, false, length, nat_lt, None, All, Err, IfOk, OnOk, IfErr, OnErr};
ghost use Rattle.box_pool.specs.Runs.{cell_count};
ghost use Rattle.box_writer.specs.Items.{IsOfFont};
ghost use Rattle.fixed_units.specs.declared.refusal.LayRefusal.TheVariants.{Range};
ghost use Rattle.layout_model.specs.Layout.{is_tree_in_range};
ghost use Rattle.tree_edits.specs.Applying.{IsProperEdit};
ghost use Rattle.tree_edits.specs.Edits.{refusal_of};
ghost use Rattle.tree_edits.specs.Inverses.{edit_of, inverse};
ghost use Rattle.kept_results.specs.Ends.{kept_count};
ghost use Rattle.kept_results.specs.Laws.{AllKept};
ghost use Rattle.memo_tree.specs.Kept.{CountsNeeded, TakesNeeded};
ghost use Rattle.memo_tree.specs.Counted.{EntriesStay, TakesVisits};
ghost use Rattle.memo_tree.specs.States.{IsIn, Sealed};
ghost use Rattle.memo_tree.specs.Trees.{context_of};
ghost use Rattle.edit_session.specs.Session.{IsCause, IsInRange, edited_session, layouts_of, page, root_box, session_of};
ghost use Rattle.edit_session.specs.Sweeping.{HasFewCells, HasGrownFrom, IsCarriedOut, IsFound, IsLeft, IsSwept, IsSweptFrom, RunsStay, is_due, most_unswept};

use crate::SessionRefusal;
use box_writer::Placed;
use fixed_units::{LayRefusal, MathBox, Memory, Steps};
use font_metrics::Metrics;
use kept_laid::KeptLayout;
use math_tree::Tree;
use memo_tree::{MemoTree, Reversal};
use outcomes::Equations;
use placement::place_kept;
use std::alloc::Global;
use std::marker::Model;
use std::sync::ledger::Ledger;
use tree_edits::Edit;

/// A tree that is laid out with the metrics of a font. It can be edited and shown; its tree is in
/// range at any time. The layouts that were made for it are kept, so that an edit makes only those
/// that it needs and that aren't there.
#[derive(Drop)]
pub struct Session {
    layouts: MemoTree,
    /// How many cells the last sweep left.
    swept_cells: usize,
    /// No more layouts are kept than this. They are counted anew where it passes the limit below.
    most_kept: usize,
}

/// An edit first drops the layouts that nothing needs where more are kept than this.
const MOST_UNSWEPT: usize = 131_072;

impl Model for Session {
    ghost use Rattle.std.specs.Coded.{codes};
    ghost use Rattle.math_tree.specs.contracts.node.Node as node;
    ghost use Rattle.kept_results.specs.contracts.memo.Memo as kept;
    ghost use Rattle.edit_session.specs.Session.{KeptSession};

    ghost Value = { KeptSession };

    ghost coded = { Prim.hlevel (codes, node.the_row.coded, kept.the_row.coded) };

    ghost use Rattle.edit_session.specs.Session.{session_of};

    ghost view = { λ session. session_of session.layouts session.swept_cells };

    ghost use Rattle.edit_session.specs.Sweeping.{IsKeptWithin};

    ghost invariant = { λ session. IsKeptWithin session.layouts session.most_kept };
}

impl Session {
    /// Takes a tree and metrics over, and lays the tree out. Exactly the layouts are kept that the
    /// one of the tree needs, and each ticks a step. Where it is refused both are dropped.
    pub fn start<L: Ledger>(
        alloc: Global,
        tree: Tree,
        metrics: Metrics,
        steps: &mut Steps<L>,
    ) -> Result<Session, LayRefusal>
        ensures ok { IfOk result (λ session. session.held
            ≡ record { tree = tree; metrics = metrics }) }
        ensures fit { IfOk result (λ session. IsInRange session.held) }
        ensures range { result ≡ Err Range → is_tree_in_range metrics tree ≡ false }
        ensures kept { IfOk result IsSwept }
        ensures few { IfOk result (λ session. kept_count session.memo ≤ 131_072) }
        ensures cells { IfOk result
            (λ session. session.swept_cells ≡ cell_count session.store.runs) }
        ensures steps { CountsNeeded metrics tree.root (context_of metrics tree) steps.old
            steps.new }
        ensures visits { TakesVisits metrics tree steps.old steps.new }
        ensures all { IfOk result (λ session. steps.new ≡ steps.old + kept_count session.memo) }
    {
        let layouts = MemoTree::start::<Equations, _>(alloc, tree, metrics, steps)?;
        let swept_cells = layouts.cells();
        // one run for each layout that is kept
        let most_kept = layouts.store().live();
        Ok(Session {
            layouts,
            swept_cells,
            most_kept,
        })
    }

    /// Carries an edit out, and makes the layouts that the edited tree needs and that aren't kept,
    /// each of which ticks a step. First the layouts are dropped that nothing needs, where more
    /// than 131,072 are kept, or more than twice the cells that the last sweep left. Where any of
    /// this is refused, the session holds what it held, and keeps what it kept but for what was
    /// dropped; an edit that the tree gives a reason to refuse takes no step.
    pub fn edit<L: Ledger>(
        &mut self,
        alloc: Global,
        edit: Edit,
        steps: &mut Steps<L>,
    ) -> Result<(), SessionRefusal>
        requires proper { IsProperEdit edit }
        ensures accepted { OnOk result (refusal_of self.old.held.tree edit ≡ None) }
        ensures edited { OnOk result (self.new.held ≡ edited_session self.old.held edit) }
        ensures fit { OnOk result (IsInRange self.new.held) }
        ensures refused { IfErr result (IsCause self.old.held edit) }
        ensures held { OnErr result (self.new.held ≡ self.old.held) }
        ensures left { IfErr result (λ refusal. IsLeft self.old refusal self.new) }
        ensures done { OnOk result
            (IsCarriedOut self.old edit self.new steps.old steps.new) }
        ensures runs { OnOk result (RunsStay self.old edit self.new) }
        ensures few { kept_count self.new.memo ≤ 262_144 }
        ensures cells { OnOk result (HasFewCells self.new) }
        ensures unlaid { refusal_of self.old.held.tree edit ≢ None → steps.new ≡ steps.old }
        ensures steps { refusal_of self.old.held.tree edit ≡ None
            → TakesNeeded self.old.held.metrics self.old.held.tree edit steps.old steps.new }
    {
        drop(self.edit_back(alloc, edit, steps)?);
        Ok(())
    }

    /// Does the same, and answers the inverse of the edit: it gives back the elements of before,
    /// with their ids, where it is carried out next. Only the next id stays as the edit left it.
    pub fn edit_back<L: Ledger>(
        &mut self,
        alloc: Global,
        edit: Edit,
        steps: &mut Steps<L>,
    ) -> Result<Edit, SessionRefusal>
        requires proper { IsProperEdit edit }
        ensures accepted { OnOk result (refusal_of self.old.held.tree edit ≡ None) }
        ensures edited { OnOk result (self.new.held ≡ edited_session self.old.held edit) }
        ensures fit { OnOk result (IsInRange self.new.held) }
        ensures back { IfOk result (λ back. back ≡ inverse self.old.held.tree edit) }
        ensures refused { IfErr result (IsCause self.old.held edit) }
        ensures held { OnErr result (self.new.held ≡ self.old.held) }
        ensures left { IfErr result (λ refusal. IsLeft self.old refusal self.new) }
        ensures done { OnOk result
            (IsCarriedOut self.old edit self.new steps.old steps.new) }
        ensures runs { OnOk result (RunsStay self.old edit self.new) }
        ensures few { kept_count self.new.memo ≤ 262_144 }
        ensures cells { OnOk result (HasFewCells self.new) }
        ensures unlaid { refusal_of self.old.held.tree edit ≢ None → steps.new ≡ steps.old }
        ensures steps { refusal_of self.old.held.tree edit ≡ None
            → TakesNeeded self.old.held.metrics self.old.held.tree edit steps.old steps.new }
    {
        Ok(self.carry_out(alloc, edit, steps)?.into_edit())
    }

    /// Carries an edit out, and answers what takes it back.
    fn carry_out<L: Ledger>(
        &mut self,
        alloc: Global,
        edit: Edit,
        steps: &mut Steps<L>,
    ) -> Result<Reversal, SessionRefusal>
        requires proper { IsProperEdit edit }
        ensures accepted { OnOk result (refusal_of self.old.held.tree edit ≡ None) }
        ensures edited { OnOk result (self.new.held ≡ edited_session self.old.held edit) }
        ensures fit { OnOk result (IsInRange self.new.held) }
        ensures back { IfOk result (λ reversal. edit_of reversal.taken
            ≡ inverse self.old.held.tree edit) }
        ensures refused { IfErr result (IsCause self.old.held edit) }
        ensures held { OnErr result (self.new.held ≡ self.old.held) }
        ensures left { IfErr result (λ refusal. IsLeft self.old refusal self.new) }
        ensures done { OnOk result
            (IsCarriedOut self.old edit self.new steps.old steps.new) }
        ensures runs { OnOk result (RunsStay self.old edit self.new) }
        ensures few { kept_count self.new.memo ≤ 262_144 }
        ensures cells { OnOk result (HasFewCells self.new) }
        ensures unlaid { refusal_of self.old.held.tree edit ≢ None → steps.new ≡ steps.old }
        ensures steps { refusal_of self.old.held.tree edit ≡ None
            → TakesNeeded self.old.held.metrics self.old.held.tree edit steps.old steps.new }
    {
        match self.sweep_if_due(alloc) {
            Ok(()) => self.edit_found(alloc, edit, steps),
            Err(Memory) => {
                // Dropped by a call, so that this function's proof doesn't go through all parts.
                drop(edit);
                Err(SessionRefusal::Memory)
            }
        }
    }

    /// Drops the layouts that nothing needs, where that is due.
    fn sweep_if_due(&mut self, alloc: Global) -> Result<(), Memory>
        ensures found { OnOk result (IsFound self.old self.new) }
        ensures few { OnOk result (kept_count self.new.memo ≤ 131_072) }
        ensures cells { OnOk result (cell_count self.new.store.runs ≤ 2 * self.new.swept_cells) }
        ensures limit { kept_count self.new.memo ≤ 262_144 }
        ensures held { self.new.held ≡ self.old.held }
        ensures unchanged { OnErr result (self.new ≡ self.old) }
    {
        if self.is_due() {
            self.sweep(alloc)?;
        }
        Ok(())
    }

    /// Carries an edit out where no sweep is due, or just was, and answers what takes it back.
    fn edit_found<L: Ledger>(
        &mut self,
        alloc: Global,
        edit: Edit,
        steps: &mut Steps<L>,
    ) -> Result<Reversal, SessionRefusal>
        requires proper { IsProperEdit edit }
        requires few { kept_count self.old.memo ≤ 131_072 }
        requires cells { cell_count self.old.store.runs ≤ 2 * self.old.swept_cells }
        ensures accepted { OnOk result (refusal_of self.old.held.tree edit ≡ None) }
        ensures edited { OnOk result (self.new.held ≡ edited_session self.old.held edit) }
        ensures fit { OnOk result (IsInRange self.new.held) }
        ensures back { IfOk result (λ reversal. edit_of reversal.taken
            ≡ inverse self.old.held.tree edit) }
        ensures refused { IfErr result (IsCause self.old.held edit) }
        ensures unchanged { OnErr result (self.new ≡ self.old) }
        ensures noted { self.new.swept_cells ≡ self.old.swept_cells }
        ensures stays { OnOk result (EntriesStay (layouts_of self.old) edit (layouts_of self.new)) }
        ensures grown { OnOk result (HasGrownFrom self.old self.new) }
        ensures runs { OnOk result (length self.new.store.runs + steps.old ≡
            length self.old.store.runs + steps.new) }
        ensures few { kept_count self.new.memo ≤ 262_144 }
        ensures cells { OnOk result (HasFewCells self.new) }
        ensures unlaid { refusal_of self.old.held.tree edit ≢ None → steps.new ≡ steps.old }
        ensures steps { refusal_of self.old.held.tree edit ≡ None
            → TakesNeeded self.old.held.metrics self.old.held.tree edit steps.old steps.new }
    {
        let reversal = self.layouts.change(alloc, edit)?;
        match self.layouts.relay::<Equations, _>(alloc, steps) {
            Ok(()) => {
                let made = self.layouts.seal();
                self.most_kept = self.most_kept.saturating_add(made);
                Ok(reversal)
            }
            Err(refusal) => {
                self.layouts.undo_pass();
                self.layouts.undo_change(reversal);
                Err(refusal.into())
            }
        }
    }

    /// Whether so much is kept that an edit first drops what isn't needed. It takes no memory.
    fn is_due(&mut self) -> bool
        ensures due { result ≡ is_due self.old }
        ensures limit { kept_count self.old.memo ≤ 262_144 }
        ensures same { self.new ≡ self.old }
    {
        self.keeps_many() || self.has_many_cells()
    }

    /// Whether more layouts are kept than a sweep may leave. It counts them only where there may be
    /// too many.
    fn keeps_many(&mut self) -> bool
        ensures many { result ≡ nat_lt most_unswept (kept_count self.old.memo) }
        ensures limit { kept_count self.old.memo ≤ 262_144 }
        ensures same { self.new ≡ self.old }
    {
        if self.most_kept > MOST_UNSWEPT {
            self.most_kept = self.layouts.kept();
        }
        self.most_kept > MOST_UNSWEPT
    }

    /// Whether there are more than twice the cells that the last sweep left.
    fn has_many_cells(&self) -> bool
        ensures { result ≡ nat_lt (2 * self.now.swept_cells) (cell_count self.now.store.runs) }
    {
        self.layouts.cells() > self.swept_cells.saturating_mul(2)
    }

    /// Drops all layouts but those that the one of the tree needs, and notes how many cells are
    /// left.
    fn sweep(&mut self, alloc: Global) -> Result<(), Memory>
        ensures swept { OnOk result (IsSweptFrom self.old self.new) }
        ensures few { OnOk result (kept_count self.new.memo ≤ 131_072) }
        ensures unchanged { OnErr result (self.new ≡ self.old) }
    {
        self.layouts.sweep(alloc)?;
        self.swept_cells = self.layouts.cells();
        // one run for each layout that is left
        self.most_kept = self.layouts.store().live();
        Ok(())
    }

    /// Says where the boxes and the marks of the tree stand, in document order: the root's baseline
    /// begins at (0, 0). All layouts are dropped but those that the one of the tree needs. Where
    /// memory is refused, either they were dropped all the same or all is as it was.
    pub fn show(&mut self, alloc: Global) -> Result<Placed, Memory>
        ensures page { IfOk result (λ items. items ≡ page self.old.held) }
        ensures glyphs { IfOk result (All (IsOfFont self.old.held.metrics)) }
        ensures held { self.new.held ≡ self.old.held }
        ensures swept { OnOk result (IsSweptFrom self.old self.new) }
        ensures few { OnOk result (kept_count self.new.memo ≤ 131_072) }
        ensures left { OnErr result (IsSweptFrom self.old self.new ⊎ (self.new ≡ self.old)) }
    {
        self.sweep(alloc)?;
        self.placed(alloc)
    }

    /// The boxes and the marks of the tree where they stand.
    fn placed(&self, alloc: Global) -> Result<Placed, Memory>
        ensures page { IfOk result (λ items. items ≡ page self.now.held) }
        ensures glyphs { IfOk result (All (IsOfFont self.now.held.metrics)) }
    {
        let context = self.layouts.context();
        let root = KeptLayout {
            node: self.layouts.tree().root(),
            memo: self.layouts.memo(),
            context: &context,
        };
        let metrics = self.layouts.metrics();
        // What placing needs to know of the metrics: the call does nothing.
        metrics.is_taken();
        place_kept(alloc, &root, self.layouts.store(), metrics)
    }

    /// Ends the session: its tree, its metrics and all that is kept are given up. A crate that
    /// calls this needn't prove how.
    pub fn end(self) {
        self.layouts.discard();
    }

    /// The metrics of the font, as the session was started with them.
    pub fn metrics(&self) -> &Metrics
        ensures exact { result.now ≡ self.now.held.metrics }
        ensures fit { IsInRange self.now.held }
    {
        self.layouts.metrics()
    }

    /// An equal tree, with the same ids and the same next id.
    pub fn tree(&self, alloc: Global) -> Result<Tree, Memory>
        ensures { IfOk result (λ copied. copied ≡ self.now.held.tree) }
    {
        self.layouts.tree().copy(alloc)
    }

    /// The box of the root, as it is laid out.
    pub fn root_box(&self) -> MathBox
        ensures exact { result ≡ root_box self.now.held }
        ensures fit { IsInRange self.now.held }
    {
        self.layouts.root_box()
    }

    /// How many layouts are kept. There are never more than 262,144.
    pub fn kept(&self) -> usize
        ensures exact { result ≡ kept_count self.now.memo }
        ensures few { kept_count self.now.memo ≤ 262_144 }
    {
        self.layouts.kept()
    }

    /// How many cells there are, those of layouts that aren't kept any more among them.
    pub fn cells(&self) -> usize
        ensures { result ≡ cell_count self.now.store.runs }
    {
        self.layouts.cells()
    }

    /// The tree with the layouts that are kept of it. They agree with it, and its own is among
    /// them.
    pub fn layouts(&self) -> &MemoTree
        ensures exact { session_of result.now self.now.swept_cells ≡ self.now }
        ensures agrees { IsIn Sealed result.now }
        ensures needed { AllKept result.now.metrics result.now.tree.root
            (context_of result.now.metrics result.now.tree) result.now.memo }
    {
        &self.layouts
    }
}
