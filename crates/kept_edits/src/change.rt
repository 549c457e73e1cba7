//! One change of the memos beside a tree, in place and without memory.
ghost use Rattle.std.specs.Prelude.{◌≡◌, ◌<◌, length};
ghost use Rattle.kept_edits.specs.Changed.{FitsMemo, changed_memo, renewed, taken_from, undone_memo, without_mark};

use embellished::Facts;
use kept_results::{Former, Memo};
use splices::Splice;

/// What an element on the way to a change is after it.
#[derive(Clone, Copy, Debug)]
pub struct Renewal {
    /// What it is among operators.
    pub facts: Facts,
    /// The place of its child on the way to the edit, where it is known that layout sees the same
    /// of the element and of its children as before, but for the head of that child.
    pub alike_but: Option<usize>,
}

/// Splices the memos of the children of an element at the end of a way, and marks all on the way.
/// Of what the elements on the way are then, that of the one at the end stands first. What was
/// taken out is given back.
pub fn change_memo(
    memo: &mut Memo,
    path: &[u16],
    known: &[Renewal],
    splice: Splice<Memo>,
) -> Option<Memo>
    requires fits { FitsMemo splice path.now memo.old }
    requires known { length path.now < length known.now }
    ensures memo { memo.new ≡ changed_memo splice known.now path.now memo.old }
    ensures taken { result ≡ taken_from splice path.now memo.old }
{
    renew(memo, known[path.len()]);
    if path.len() == 0 {
        splice.apply_to(&mut memo.below)
    } else {
        change_memo(
            memo.below.at_mut(path[0] as usize),
            &path[1..],
            known,
            splice,
        )
    }
}

/// Takes such a change back by the splice that undoes it: what was known of the elements on the way
/// is known again, without marks.
pub fn undo_memo(memo: &mut Memo, path: &[u16], splice: Splice<Memo>) -> Option<Memo>
    requires { FitsMemo splice path.now memo.old }
    ensures memo { memo.new ≡ undone_memo splice path.now memo.old }
    ensures taken { result ≡ taken_from splice path.now memo.old }
{
    clear_mark(memo);
    if path.len() == 0 {
        splice.apply_to(&mut memo.below)
    } else {
        undo_memo(memo.below.at_mut(path[0] as usize), &path[1..], splice)
    }
}

/// Marks a memo, whose element is this from now on.
fn renew(memo: &mut Memo, own: Renewal)
    ensures { memo.new ≡ renewed own memo.old }
{
    memo.former = Some(Former {
        facts: memo.facts,
        alike_but: own.alike_but,
    });
    memo.facts = own.facts;
}

/// Clears the mark of a memo, whose element is what it was before.
fn clear_mark(memo: &mut Memo)
    ensures { memo.new ≡ without_mark memo.old }
{
    if let Some(former) = memo.former {
        memo.facts = former.facts;
    }
    memo.former = None;
}
