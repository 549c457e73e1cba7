ghost use Rattle.std.specs.Prelude.{◌≡◌};
ghost use Rattle.tree_edits.specs.Applying.{CanRestore, restored};
ghost use Rattle.tree_edits.specs.Inverses.{edit_of};
ghost use Rattle.kept_edits.specs.Changed.{FitsMemo, undone_memo};

use kept_edits::undo_memo;
use kept_results::Memo;
use math_tree::Tree;
use splices::Splice;
use std::marker::Model;
use tree_edits::{Edit, Path, Taken, restore};

/// What takes a change of a tree with its kept layouts back.
#[derive(Debug, Drop)]
pub struct Reversal {
    taken: Taken,
    path: Path,
    back: Splice<Memo>,
}

impl Model for Reversal {
    ghost use Rattle.std.specs.Coded.{codes};
    ghost use Rattle.kept_results.specs.contracts.memo.Memo as kept;
    ghost use Rattle.splices.specs.contracts.splice.Splice as spliced;
    ghost use Rattle.tree_edits.specs.contracts.change.Change as one;
    ghost use Rattle.memo_tree.specs.Reversing.{ReversalValue};

    ghost Value = { ReversalValue };

    ghost coded = { Prim.hlevel (codes, one.the_row.coded, (spliced.the_row kept.the_row).coded) };

    ghost view = { λ reversal. record {
      taken = reversal.taken;
      path = reversal.path;
      back = reversal.back;
    } };
}

impl Reversal {
    /// By what undoes the change of the tree, and the splice of memos that undoes theirs.
    pub(crate) fn of(taken: Taken, path: Path, back: Splice<Memo>) -> Reversal
        ensures { result ≡ record { taken = taken; path = path; back = back } }
    {
        Reversal { taken, path, back }
    }

    /// The inverse of the edit: it makes the elements of before, with their ids, of the tree as the
    /// edit left it. It takes no memory.
    pub fn into_edit(self) -> Edit
        ensures { result ≡ edit_of self.taken }
    {
        self.taken.into_edit()
    }

    /// Takes the change back. It takes no memory.
    pub(crate) fn take_back(self, tree: &mut Tree, memo: &mut Memo)
        requires tree { CanRestore self.taken tree.old }
        requires memo { FitsMemo self.back self.path memo.old }
        ensures tree { tree.new ≡ restored self.taken tree.old }
        ensures memo { memo.new ≡ undone_memo self.back self.path memo.old }
    {
        let Reversal { taken, path, back } = self;
        restore(tree, taken);
        undo_memo(memo, path.as_slice(), back);
    }
}
