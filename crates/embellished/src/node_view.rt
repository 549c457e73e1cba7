ghost use Rattle.std.specs.Prelude.{◌≡◌, ◌<◌, ◌≤◌, length, map, IfOk};
ghost use Rattle.std.specs.List.{position_or_len};
ghost use Rattle.math_tree.specs.declared.node.Node.TheViews.{out-Node};
ghost use Rattle.embellished.specs.Facts.{facts};
ghost use Rattle.embellished.specs.Kinds as kinds;
ghost use Rattle.embellished.specs.Seen.{AreFactsKept, HasChild, IsShown, children_from, children_shown, flow_children, known_child, prescripts_in, seen_of, shown_child};

use crate::facts::Facts;
use crate::flow::{LaidOut, flow, shows_each};
use crate::kinds::is_prescripts_mark;
use crate::validity::but_annotations;
use crate::view::View;
use fixed_units::{List, Memory};
use math_tree::{Head, Kind, Node};
use std::alloc::Global;

/// A view of an element of a tree, which lends the nodes of its children too.
#[derive(Debug, Drop)]
pub struct NodeView<'a, 'f> {
    node: &'a Node,
    facts: Facts,
    kids: Shown<'a, 'f>,
    prescripts: usize,
    ghost known: { AreFactsKept node.now kids },
    ghost shows: { IsShown node.now facts (children_shown node.now kids) prescripts },
    ghost few: { length (flow_children node.now) ≤ 65535 },
}

/// The children in flow. Mostly all are, and then no list is made of them.
#[derive(Debug, Drop)]
enum Shown<'a, 'f> {
    /// All children; this is what they are.
    Each(&'f List<Facts>),
    /// Those that are listed.
    Listed(Vec<ShownKid<'a>>),
}

/// A child, its place among all children, and what it is.
#[derive(Clone, Copy, Debug)]
struct ShownKid<'a> {
    node: &'a Node,
    place: usize,
    facts: Facts,
}

impl<'a> LaidOut for ShownKid<'a> {
    ghost kind = { λ kid. kid.facts.laid };

    fn laid(&self) -> Kind {
        self.facts.laid
    }
}

impl<'a, 'f> NodeView<'a, 'f> {
    /// A view of a node, where it is known what the element is and what its children are.
    pub fn make(
        alloc: Global,
        node: &'a Node,
        own: Facts,
        kids: &'f List<Facts>,
    ) -> Result<NodeView<'a, 'f>, Memory>
        requires own { own ≡ facts node.now }
        requires known { kids.now ≡ map facts (out-Node node.now).children }
        requires few { length (out-Node node.now).children ≤ 65535 }
        ensures { IfOk result (λ view. view.node.now ≡ node.now) }
    {
        if shows_each(own.laid, kids.as_slice()) {
            return Ok(NodeView {
                node,
                facts: own,
                kids: Shown::Each(kids),
                prescripts: kids.len(),
            });
        }
        NodeView::listed(alloc, node, own, kids.as_slice())
    }

    /// The same, where those in flow are listed.
    fn listed(
        alloc: Global,
        node: &'a Node,
        own: Facts,
        kids: &[Facts],
    ) -> Result<NodeView<'a, 'f>, Memory>
        requires own { own ≡ facts node.now }
        requires known { kids.now ≡ map facts (out-Node node.now).children }
        requires few { length (out-Node node.now).children ≤ 65535 }
        ensures { IfOk result (λ view. view.node.now ≡ node.now) }
    {
        let all = children_of(alloc, node, kids)?;
        let shown = flow(alloc, own.laid, all.as_slice())?;
        let prescripts = prescripts_of(alloc, own.laid, kids, shown.as_slice().len())?;
        Ok(NodeView {
            node,
            facts: own,
            kids: Shown::Listed(shown),
            prescripts,
        })
    }

    /// The element that is shown.
    pub fn node(&self) -> &'a Node
        ensures { result.now ≡ self.now.node.now }
    {
        self.node
    }

    /// The place of a child in flow among all children of the element, counted from 0.
    pub fn place(&self, index: usize) -> usize
        requires { index < length (seen_of self.now.node.now).kids }
        ensures { HasChild self.now.node.now index (λ child. child.place ≡ result) }
    {
        match &self.kids {
            Shown::Each(_) => index,
            Shown::Listed(kids) => kids[index].place,
        }
    }

    /// The node of a child in flow.
    pub fn node_at(&self, index: usize) -> &'a Node
        requires { index < length (seen_of self.now.node.now).kids }
        ensures { HasChild self.now.node.now index (λ child. child.node ≡ result.now) }
    {
        match &self.kids {
            Shown::Each(_) => &self.node.children.as_slice()[index],
            Shown::Listed(kids) => kids[index].node,
        }
    }
}

/// The children of an element with their places, where it is known what each of them is.
fn children_of<'a>(
    alloc: Global,
    node: &'a Node,
    kids: &[Facts],
) -> Result<Vec<ShownKid<'a>>, Memory>
    requires known { kids.now ≡ map facts (out-Node node.now).children }
    ensures { IfOk result (λ made.
        map shown_child made.items
        ≡ map known_child (children_from 0 (out-Node node.now).children)) }
{
    let nodes = node.children.as_slice();
    let mut made = Vec::with_capacity(alloc, nodes.len())?;
    for place in 0..nodes.len() {
        made.push(ShownKid {
            node: &nodes[place],
            place,
            facts: kids[place],
        })?;
    }
    Ok(made)
}

/// The place where the prescripts begin, among `shown` children in flow.
fn prescripts_of(alloc: Global, laid: Kind, kids: &[Facts], shown: usize) -> Result<usize, Memory>
    ensures { IfOk result (λ place. place
        ≡ prescripts_in laid (map (λ kid. kid.laid) kids.now) shown) }
{
    if !matches!(laid, Kind::Mmultiscripts) {
        return Ok(shown);
    }
    let others = but_annotations(alloc, kids)?;
    Ok(mark_place(others.as_slice()))
}

/// How many children stand before the first mark.
fn mark_place(kids: &[Kind]) -> usize
    ensures { result ≡ position_or_len kinds.is_prescripts_mark kids.now }
{
    kids.iter()
        .take_while(|kid| !is_prescripts_mark(**kid))
        .count()
}

impl<'a, 'f> View for NodeView<'a, 'f> {
    ghost element = { λ view. view.node.now };

    fn head(&self) -> &Head {
        &self.node.head
    }

    fn facts(&self) -> Facts {
        self.facts
    }

    fn kids(&self) -> usize {
        match &self.kids {
            Shown::Each(kids) => kids.len(),
            Shown::Listed(kids) => kids.len(),
        }
    }

    fn kid(&self, index: usize) -> &Head {
        &self.node_at(index).head
    }

    fn kid_facts(&self, index: usize) -> Facts {
        match &self.kids {
            Shown::Each(kids) => kids.as_slice()[index],
            Shown::Listed(kids) => kids[index].facts,
        }
    }

    fn prescripts(&self) -> usize {
        self.prescripts
    }
}
