ghost use Rattle.std.specs.Prelude.{◌≡◌};
ghost use Rattle.kept_results.specs.Kept.{is_fresh};
ghost use Rattle.kept_results.specs.Tidy.{is_new};

use box_pool::RunId;
use embellished::Facts;
use fixed_units::List;
use layout_model::{Context, Reply};

/// A layout of an element that is kept: the run of the outcome in a context, in a store beside the
/// memo, and what was asked for it.
#[derive(Debug, Drop)]
pub struct Entry {
    pub context: Context,
    pub run: RunId,
    /// What the element asked in the first wave, and what was answered.
    pub one: List<Reply>,
    /// The same of the second wave.
    pub two: List<Reply>,
    /// Whether it is known that all children are in flow, none of them a prescript, and that each
    /// is asked once, in order, in the first wave, whatever they answer.
    pub regular: bool,
    /// How it stands to the present pass.
    pub origin: Origin,
}

/// How an entry stands to the present pass.
#[derive(Debug, Drop)]
pub enum Origin {
    /// The pass left it as it was.
    Standing,
    /// The pass made it.
    Made,
    /// The pass made it out of one that stood, of which this was otherwise: one item, on the heap,
    /// so that an entry is larger by a list alone.
    Remade(List<Before>),
}

/// What was otherwise of an entry before the present pass made it anew.
#[derive(Debug, Drop)]
pub struct Before {
    /// The place of the child that was asked again.
    pub child: usize,
    /// What that child was asked, and answered.
    pub reply: Reply,
    /// The run of the outcome over that.
    pub run: RunId,
}

impl Entry {
    /// Whether the present pass made it, out of nothing or out of one that stood.
    pub fn is_fresh(&self) -> bool
        ensures { result ≡ is_fresh self.now }
    {
        !matches!(self.origin, Origin::Standing)
    }

    /// Whether the present pass made it, and not out of one that stood.
    pub(crate) fn is_new(&self) -> bool
        ensures { result ≡ is_new self.now.origin }
    {
        matches!(self.origin, Origin::Made)
    }
}

/// What an element was before the present edit, which changes it or one below it.
#[derive(Clone, Copy, Debug)]
pub struct Former {
    /// What it was among operators.
    pub facts: Facts,
    /// The place of its child on the way to the edit, where it is known that layout sees the same
    /// of the element and of its children as before the edit, but for the head of that child.
    pub alike_but: Option<usize>,
}

/// The kept layouts of an element and of all elements below it, in the shape of the tree. The
/// outcomes themselves lie in a store.
///
/// It is plain data that holds itself: contracts read a layer as `out-Memo` of it.
#[derive(Debug, Drop)]
pub struct Memo {
    /// What the element was before the present edit, where that edit changes the element or one
    /// below it: then it is marked.
    pub former: Option<Former>,
    /// What the element is among operators.
    pub facts: Facts,
    pub entries: List<Entry>,
    /// The same of each child.
    pub below: List<Memo>,
}
