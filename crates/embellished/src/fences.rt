ghost use Rattle.std.specs.Prelude.{◌≡◌, ◌<◌};
ghost use Rattle.embellished.specs.Fences.{fences_in, with_one};
ghost use Rattle.embellished.specs.Seen.{seen_of};

use crate::view::View;

/// Where the children in flow that aren't space-like begin, and where they end. The first and the
/// last of them are the fences of a row.
#[derive(Clone, Copy, Debug, PartialEq, Eq)]
pub struct Fences {
    /// How many children stand before the first of them.
    pub first: usize,
    /// How many children there are up to the last of them, that one included.
    pub end: usize,
}

/// Finds them in one pass over the children in flow.
pub fn fences_of<V: View>(parent: &V) -> Fences
    ensures { result ≡ fences_in (seen_of (V.element parent.now)).kids }
{
    let mut fences = Fences { first: 0, end: 0 };
    for index in 0..parent.kids() {
        fences = fences.with(index, parent.kid_facts(index).space_like);
    }
    fences
}

impl Fences {
    /// The same with the child at the index too, behind which none was looked at.
    fn with(self, index: usize, blank: bool) -> Fences
        requires { index < 65535 }
        ensures { result ≡ with_one self index blank }
    {
        if !blank {
            return Fences {
                first: self.first,
                end: index + 1,
            };
        }
        if self.first == index {
            return Fences {
                first: index + 1,
                end: self.end,
            };
        }
        self
    }
}
