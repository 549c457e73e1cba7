ghost use Rattle.std.specs.Prelude.{◌≡◌, ◌+◌, ◌≤◌, true, [], ◌∷◌, drop, length, take, IfOk};
ghost use Rattle.tree_edits.specs.Applying.{IsProperEdit};
ghost use Rattle.edit_ring.specs.Grounds.{IsStanding, Shows};
ghost use Rattle.edit_ring.specs.Rings.{IsTrail, Moves, RingEdits, RingMoves, after_redo, after_undo, redone, state_of, undone};

use crate::{Ground, GroundRefusal};
use box_writer::Placed;
use circular_buffer::HeapCircularBuffer;
use fixed_units::{Memory, Steps};
use font_metrics::Metrics;
use std::alloc::Global;
use std::marker::Model;
use std::sync::ledger::Ledger;
use thiserror::Error;
use tree_edits::Edit;

/// Why an edit was not undone or redone; everything is then as it was.
#[derive(Clone, Copy, Debug, PartialEq, Eq, Error)]
pub enum RingRefusal {
    /// There is none.
    #[error("there is nothing to undo or redo")]
    Nothing,
    /// Memory was refused.
    #[error("memory was refused")]
    Memory,
}

impl From<Memory> for RingRefusal {
    ghost use Rattle.std.specs.Prelude.{◌≡◌};
    ghost use Rattle.edit_ring.specs.declared.ring.RingRefusal.TheVariants.{Memory as OutOfMemory};

    ghost from_gives = { λ _ refusal. refusal ≡ OutOfMemory };

    fn from(_: Memory) -> Self {
        RingRefusal::Memory
    }
}

/// A ground with the inverses of its last edits, the newest first, and those of the edits that were
/// undone.
#[derive(Drop)]
pub struct Ring<G: Ground> {
    base: G,
    past: HeapCircularBuffer<Edit>,
    future: HeapCircularBuffer<Edit>,
}

impl<G: Ground> Model for Ring<G> {
    ghost use Rattle.edit_ring.specs.Rings.{RingValue, ring_code, IsRing};

    ghost Value = { RingValue G };

    ghost coded = { ring_code G.code };

    ghost view = { λ ring. record {
      base = ring.base;
      past = ring.past.items;
      future = ring.future.items;
      depth = ring.past.capacity;
    } };

    ghost invariant = { λ ring. IsRing (G.Ground.told ring.base) ring.past.items ring.future.items
        ring.past.capacity ring.future.capacity };
}

impl<G: Ground> Ring<G> {
    /// A ring that has no edit yet and keeps that many, 1 to 1,000. Where memory is refused, the
    /// ground is dropped.
    pub fn make(alloc: Global, base: G, depth: usize) -> Result<Ring<G>, Memory>
        requires some { 1 ≤ depth }
        requires few { depth ≤ 1000 }
        ensures { IfOk result (λ ring.
            ring ≡ record { base = base; past = []; future = []; depth = depth }) }
    {
        // What a ring needs to know of its ground: the call does nothing.
        base.metrics();
        let past = HeapCircularBuffer::with_capacity(alloc, depth)?;
        let future = HeapCircularBuffer::with_capacity(alloc, depth)?;
        Ok(Ring { base, past, future })
    }

    /// Carries an edit out. The edits that were undone are forgotten, and where the ring is full
    /// the oldest that could be undone. After a refusal the ring is as before.
    pub fn edit<L: Ledger>(
        &mut self,
        alloc: Global,
        edit: Edit,
        steps: &mut Steps<L>,
    ) -> Result<(), GroundRefusal>
        requires proper { IsProperEdit edit }
        ensures { RingEdits G.takes (state_of G.told self.old) (state_of G.told self.new) edit
            steps.old steps.new result }
    {
        let back = self.base.change(alloc, edit, steps)?;
        keep(&mut self.past, back);
        self.future.clear();
        Ok(())
    }

    /// Undoes the last edit that wasn't undone. After a refusal the ring is as before.
    pub fn undo<L: Ledger>(
        &mut self,
        alloc: Global,
        steps: &mut Steps<L>,
    ) -> Result<(), RingRefusal>
        ensures { RingMoves G.takes undone after_undo (state_of G.told self.old)
            (state_of G.told self.new) self.old.past steps.old steps.new result }
    {
        walk(
            &mut self.base,
            &mut self.past,
            &mut self.future,
            alloc,
            steps,
        )
    }

    /// Makes the edit again that was undone last. After a refusal the ring is as before.
    pub fn redo<L: Ledger>(
        &mut self,
        alloc: Global,
        steps: &mut Steps<L>,
    ) -> Result<(), RingRefusal>
        ensures { RingMoves G.takes redone after_redo (state_of G.told self.old)
            (state_of G.told self.new) self.old.future steps.old steps.new result }
    {
        walk(
            &mut self.base,
            &mut self.future,
            &mut self.past,
            alloc,
            steps,
        )
    }

    /// The boxes and marks of the present tree.
    pub fn show(&mut self, alloc: Global) -> Result<Placed, Memory>
        ensures shows { Shows (G.told self.old.base) (G.told self.new.base) result }
        ensures unchanged { state_of G.told self.new ≡ state_of G.told self.old }
    {
        self.base.show(alloc)
    }

    /// The ground, as it stands.
    pub fn base(&self) -> &G
        ensures { result.now ≡ self.now.base }
    {
        &self.base
    }

    /// The metrics of the ground. It takes no memory.
    pub fn metrics(&self) -> &Metrics
        ensures exact { result.now ≡ (G.told self.now.base).metrics }
        ensures standing { IsStanding (G.told self.now.base) }
    {
        self.base.metrics()
    }
}

/// Makes the first of some kept edits, and keeps its inverse before some others.
fn walk<G: Ground, L: Ledger>(
    base: &mut G,
    from: &mut HeapCircularBuffer<Edit>,
    to: &mut HeapCircularBuffer<Edit>,
    alloc: Global,
    steps: &mut Steps<L>,
) -> Result<(), RingRefusal>
    requires leads { IsTrail (G.told base.old).is_good (G.told base.old).tree from.old.items }
    requires leads_back { IsTrail (G.told base.old).is_good (G.told base.old).tree to.old.items }
    requires room { length from.old.items + length to.old.items ≤ to.old.capacity }
    ensures moves { Moves G.takes (G.told base.old) (G.told base.new) from.old.items from.new.items
        to.old.items to.new.items steps.old steps.new result }
    ensures from { from.new.capacity ≡ from.old.capacity }
    ensures to { to.new.capacity ≡ to.old.capacity }
{
    let Some(kept) = from.front() else {
        return Err(RingRefusal::Nothing);
    };
    let copied = kept.copy(alloc)?;
    match base.change(alloc, copied, steps) {
        Ok(back) => {
            forget_first(from);
            keep(to, back);
            Ok(())
        }
        Err(GroundRefusal::Memory) => Err(RingRefusal::Memory),
        Err(GroundRefusal::Edit(_)) => unreachable!(),
        Err(GroundRefusal::Range) => unreachable!(),
    }
}

/// Puts an edit before the others. Where there is no room for one more, the last one is dropped.
fn keep(kept: &mut HeapCircularBuffer<Edit>, edit: Edit)
    ensures edits { kept.new.items ≡ take kept.old.capacity (edit ∷ kept.old.items) }
    ensures room { kept.new.capacity ≡ kept.old.capacity }
{
    kept.push_front(edit);
}

/// Drops the first edit, where there is one.
fn forget_first(kept: &mut HeapCircularBuffer<Edit>)
    ensures edits { kept.new.items ≡ drop 1 kept.old.items }
    ensures room { kept.new.capacity ≡ kept.old.capacity }
{
    kept.pop_front();
}
