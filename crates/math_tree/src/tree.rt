ghost use Rattle.std.specs.Prelude.{◌≡◌, IfOk};
ghost use Rattle.math_tree.specs.Trees.{IsTotalled, IsWhole, byte_count, element_count};

use crate::Node;
use fixed_units::Memory;
use std::alloc::Global;
use std::marker::Model;
use std::mem;

/// A tree of elements, with the id that the next new element gets. It is whole: its root is a
/// `math`, its elements are in their form, its ids differ, and it is within the limits on levels,
/// elements and bytes. How many of these it has is kept, so that an edit needn't count them anew.
#[derive(Debug, Drop)]
pub struct Tree {
    root: Node,
    next_id: u64,
    elements: u32,
    bytes: u64,
}

impl Model for Tree {
    ghost use Rattle.std.specs.Coded.{codes};
    ghost use Rattle.math_tree.specs.Trees.{TreeValue};
    ghost use Rattle.math_tree.specs.contracts.node.Node as node;

    ghost Value = { TreeValue };

    ghost coded = { Prim.hlevel (codes, node.the_row.coded) };

    ghost use Rattle.math_tree.specs.Trees.{IsTotalled};

    ghost view = { λ tree. record { root = tree.root; next_id = tree.next_id } };

    ghost invariant = { λ tree.
        IsTotalled (record { root = tree.root; next_id = tree.next_id }) tree.elements tree.bytes };
}

impl Tree {
    /// The tree of a root, of a next id that fits it, and of its totals.
    pub fn whole(root: Node, next_id: u64, elements: u32, bytes: u64) -> Tree
        requires { IsTotalled (record { root = root; next_id = next_id }) elements bytes }
        ensures { result ≡ record { root = root; next_id = next_id } }
    {
        Tree {
            root,
            next_id,
            elements,
            bytes,
        }
    }

    /// The same tree again, with the same ids and the same next id.
    pub fn copy(&self, alloc: Global) -> Result<Tree, Memory>
        ensures { IfOk result (λ copied. copied ≡ self.now) }
    {
        Ok(Tree {
            root: self.root.copy(alloc)?,
            next_id: self.next_id,
            elements: self.elements,
            bytes: self.bytes,
        })
    }

    /// Puts another root in, with the next id and the totals of the whole tree that it makes, and
    /// answers the root that was there. It counts nothing and takes no memory, so that an edit can
    /// work on the elements themselves.
    pub fn exchange(&mut self, root: Node, next_id: u64, elements: u32, bytes: u64) -> Node
        requires { IsTotalled (record { root = root; next_id = next_id }) elements bytes }
        ensures former { result ≡ self.old.root }
        ensures present { self.new ≡ record { root = root; next_id = next_id } }
    {
        self.next_id = next_id;
        self.elements = elements;
        self.bytes = bytes;
        mem::replace(&mut self.root, root)
    }

    /// Gives the tree up. A crate that calls this needn't prove how.
    pub fn discard(self) {
        drop(self);
    }

    /// The element at the top.
    pub fn root(&self) -> &Node
        ensures exact { result.now ≡ self.now.root }
        ensures whole { IsWhole self.now }
    {
        &self.root
    }

    /// The id that the next new element gets, at most 2^32.
    pub fn next_id(&self) -> u64
        ensures exact { result ≡ self.now.next_id }
        ensures whole { IsWhole self.now }
    {
        self.next_id
    }

    /// How many elements there are. It counts nothing.
    pub fn elements(&self) -> u32
        ensures { result ≡ element_count self.now.root }
    {
        self.elements
    }

    /// The bytes of all names, attribute names, values and texts. It counts nothing.
    pub fn bytes(&self) -> u64
        ensures { result ≡ byte_count self.now.root }
    {
        self.bytes
    }
}
