ghost use Rattle.std.specs.Prelude.{◌≡◌, ◌≤◌, ◌<◌, ◌+◌, ◌∷◌, ◌++◌, [], length, is_some, true, false, Some, None};
ghost use Rattle.std.specs.List.{AllByRecursion};
ghost use Rattle.math_tree.specs.Forms.{most_elements, most_levels};
ghost use Rattle.math_tree.specs.Trees.{element_count, listed};
ghost use Rattle.tree_edits.specs.Paths.{Finds, node_at};

use arrayvec::ArrayVec;
use math_tree::{Node, NodeId, Tree};
use std::marker::Model;

/// The way down from an element to one below it: the place of a child, that of one of its children,
/// and so on. A tree has at most 60 levels and 65,536 elements, so there are at most 59 places, and
/// each fits in 16 bits. It takes no memory.
#[derive(Debug, Drop)]
pub struct Path {
    places: ArrayVec<u16, 59>,
}

impl Model for Path {
    ghost use Rattle.std.specs.Prelude.{ℕ, List as Sequence};

    ghost Value = { Sequence ℕ };

    ghost view = { λ path. path.places.items };
}

impl Path {
    /// The way to where one stands.
    pub(crate) fn here() -> Path
        ensures { result ≡ [] }
    {
        Path {
            places: ArrayVec::new(),
        }
    }

    /// The way from one level higher, where it begins at the child at a place.
    pub(crate) fn begin_at(&mut self, place: usize)
        requires short { length self.old < 59 }
        requires place { place < 65_536 }
        ensures { self.new ≡ place ∷ self.old }
    {
        self.places.insert(0, place as u16);
    }

    /// The same way again. It takes no memory.
    pub fn copy(&self) -> Path
        ensures { result ≡ self.now }
    {
        let all = self.places.as_slice();
        let mut places = ArrayVec::new();
        for place in all {
            places.push(*place);
        }
        Path { places }
    }

    /// The level of the element that it leads to, where it begins at the root, which has level 1.
    pub fn level(&self) -> u32
        ensures { result ≡ 1 + length self.now }
    {
        self.places.len() as u32 + 1
    }

    /// The way to the element right over the one that it leads to, and the place of that one there.
    pub fn split(mut self) -> (Path, usize)
        requires { 1 ≤ length self }
        ensures { self ≡ result.0 ++ result.1 ∷ [] }
    {
        let place = self.places.pop().unwrap();
        (self, usize::from(place))
    }

    /// The places, from the highest down.
    pub fn as_slice(&self) -> &[u16]
        ensures { result.now ≡ self.now }
    {
        self.places.as_slice()
    }
}

/// The way to the element of an id, from the root of a tree. It looks at all elements before it.
pub fn path_to(tree: &Tree, id: NodeId) -> Option<Path>
    ensures { Finds id.0 1 tree.now.root result }
{
    let mut path = Path::here();
    if find(tree.root(), id, 1, &mut path) {
        Some(path)
    } else {
        None
    }
}

/// Whether there is such a way from an element at that level down, written where it is wanted. All
/// elements are looked at for most ids, so none of them makes room for a way of its own.
#[tactic(auto, using(crate::proofs::Paths::leads_here, crate::proofs::Paths::leads_further, crate::proofs::Paths::level_within, crate::proofs::Paths::in_child, crate::proofs::Paths::none_more, crate::proofs::Paths::none_in))]
fn find(node: &Node, id: NodeId, level: usize, path: &mut Path) -> bool
    requires shallow { AllByRecursion (λ e. e.level ≤ most_levels) (listed level node.now) }
    requires few { element_count node.now ≤ most_elements }
    requires level { 1 ≤ level }
    requires empty { path.old ≡ [] }
    ensures found { result ≡ true → Finds id.0 level node.now (Some path.new) }
    ensures nowhere { result ≡ false → Finds id.0 level node.now None }
    ensures still { result ≡ false → path.new ≡ [] }
{
    if node.head.id.0 == id.0 {
        return true;
    }
    for (place, child) in node.children.as_slice().iter().enumerate() {
        if find(child, id, level + 1, path) {
            path.begin_at(place);
            return true;
        }
    }
    false
}

/// The element at the end of a way.
pub fn element_at<'a>(node: &'a Node, path: &[u16]) -> &'a Node
    requires { is_some (node_at path.now node.now) ≡ true }
    ensures { node_at path.now node.now ≡ Some result.now }
{
    if path.len() == 0 {
        node
    } else {
        element_at(&node.children.as_slice()[path[0] as usize], &path[1..])
    }
}
