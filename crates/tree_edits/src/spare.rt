ghost use Rattle.std.specs.Prelude.{◌≡◌};
ghost use Rattle.tree_edits.specs.Spare.{spare_root};

use fixed_units::{List, Memory, Txt};
use math_tree::{Attributes, Head, Kind, Node, NodeId};
use std::alloc::Global;
use std::marker::Model;

/// A root without children. It stands in a tree while the elements of that tree are changed, so
/// that the tree is whole at any time.
#[derive(Debug, Drop)]
pub struct Spare {
    root: Node,
}

impl Model for Spare {
    ghost use Rattle.std.specs.Prelude.{◌≡◌};
    ghost use Rattle.std.specs.Coded.{codes};
    ghost use Rattle.math_tree.specs.contracts.node.Node as node;
    ghost use Rattle.math_tree.specs.declared.node.Node.{Node as Element};
    ghost use Rattle.tree_edits.specs.Spare.{spare_root};

    ghost Value = { Element };

    ghost coded = { Prim.hlevel (codes, node.the_row.coded) };

    ghost view = { λ spare. spare.root };

    ghost invariant = { λ spare. spare.root ≡ spare_root };
}

impl Spare {
    /// Such a root.
    #[tactic(auto, unfolding(crate::specs::Spare::spare_root))]
    pub fn make(alloc: Global) -> Result<Spare, Memory> {
        Ok(Spare {
            root: Node {
                head: Head {
                    id: NodeId(1),
                    name: Txt::make(alloc, "math")?,
                    kind: Kind::Math,
                    attributes: Attributes::make(alloc),
                    text: Txt::make(alloc, "")?,
                },
                children: List::make(alloc),
            },
        })
    }

    /// The same of such a root that was in use.
    pub fn of(root: Node) -> Spare
        requires { root ≡ spare_root }
        ensures { result ≡ root }
    {
        Spare { root }
    }

    /// The root itself.
    pub fn into_root(self) -> Node
        ensures { result ≡ spare_root }
    {
        self.root
    }
}
