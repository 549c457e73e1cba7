ghost use Rattle.std.specs.Prelude.{◌≡◌};
ghost use Rattle.kept_results.specs.Regular.{IsShownBy};

use crate::memo::Memo;
use embellished::{Facts, View};
use math_tree::{Head, Node};

/// A view of an element that has all its children in flow. It takes no memory: what the children
/// are is read off their memos.
#[derive(Debug, Drop)]
pub struct WholeView<'a> {
    node: &'a Node,
    memo: &'a Memo,
    ghost shown: { IsShownBy memo.now node.now },
}

impl<'a> WholeView<'a> {
    /// That of an element, by its memo.
    pub fn of(node: &'a Node, memo: &'a Memo) -> WholeView<'a>
        requires { IsShownBy memo.now node.now }
        ensures { result.node.now ≡ node.now }
    {
        WholeView { node, memo }
    }
}

impl<'a> View for WholeView<'a> {
    ghost element = { λ view. view.node.now };

    fn head(&self) -> &Head {
        &self.node.head
    }

    fn facts(&self) -> Facts {
        self.memo.facts
    }

    fn kids(&self) -> usize {
        self.node.children.len()
    }

    fn kid(&self, index: usize) -> &Head {
        let node = &self.node.children.as_slice()[index];
        &node.head
    }

    fn kid_facts(&self, index: usize) -> Facts {
        let memo = &self.memo.below.as_slice()[index];
        memo.facts
    }

    fn prescripts(&self) -> usize {
        self.node.children.len()
    }
}
