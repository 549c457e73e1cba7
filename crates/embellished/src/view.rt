ghost use Rattle.std.specs.Prelude.{◌≡◌, ◌<◌, ◌≤◌, length, slice_get, Some};
ghost use Rattle.math_tree.specs.declared.node.Node.{Node};
ghost use Rattle.embellished.specs.Seen.{Seen, seen_of, HasKid};

use crate::facts::Facts;
use math_tree::Head;

/// An element with its children in flow, as layout sees it.
///
/// What it shows is `seen_of` of one element of a tree: neither more of the tree than this element
/// nor how it was found out.
pub trait View {
    /// The element that is shown.
    ghost element: { Self → Node };

    /// What is said of the element itself.
    fn head(&self) -> &Head
        ensures { result.now ≡ (seen_of (element self.now)).head };

    /// What the element is among operators.
    fn facts(&self) -> Facts
        ensures { result ≡ (seen_of (element self.now)).facts };

    /// How many children are in flow.
    fn kids(&self) -> usize
        ensures count { result ≡ length (seen_of (element self.now)).kids }
        ensures few { result ≤ 65535 };

    /// What is said of a child in flow.
    fn kid(&self, index: usize) -> &Head
        requires { index < length (seen_of (element self.now)).kids }
        ensures { HasKid (seen_of (element self.now)) index (λ kid. kid.head ≡ result.now) };

    /// What a child in flow is among operators.
    fn kid_facts(&self, index: usize) -> Facts
        requires { index < length (seen_of (element self.now)).kids }
        ensures { HasKid (seen_of (element self.now)) index (λ kid. kid.facts ≡ result) };

    /// How many children in flow stand before the `mprescripts` of a valid `mmultiscripts`; of
    /// another element, and of one without it, how many there are.
    fn prescripts(&self) -> usize
        ensures { result ≡ (seen_of (element self.now)).prescripts };
}
