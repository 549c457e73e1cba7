//! Where an edit changes a tree, and what it does to the children of the element there.
ghost use Rattle.std.specs.Prelude.{◌≡◌, None as NoReason};
ghost use Rattle.math_tree.specs.Trees.{IsWhole, TreeValue};
ghost use Rattle.tree_edits.specs.Edits.{named, refusal_of};
ghost use Rattle.tree_edits.specs.Paths.{Finds, LeadsTo};
ghost use Rattle.kept_edits.specs.Ways.{HasWay};

use math_tree::Tree;
use splices::Site;
use tree_edits::{Edit, Path};

/// The way to the element that an edit changes, and what becomes of its children.
#[derive(Debug, Drop)]
pub struct Way {
    pub path: Path,
    pub site: Site,
}

/// Where an edit changes a tree, by the way to the element that the edit names, or none where no
/// element has its id. There is an answer at least where the edit isn't refused.
pub fn way_along(tree: &Tree, found: &Option<Path>, edit: &Edit) -> Option<Way>
    requires whole { IsWhole tree.now }
    requires found { Finds (named edit.now) 1 tree.now.root found.now }
    ensures { refusal_of tree.now edit.now ≡ NoReason → HasWay tree.now edit.now result }
{
    match found {
        Some(path) => end_of(path.copy(), edit),
        None => None,
    }
}

/// The same, where the path leads to the element that the edit names.
fn end_of(path: Path, edit: &Edit) -> Option<Way>
    ensures { (tree : TreeValue) → IsWhole tree → refusal_of tree edit.now ≡ NoReason →
        LeadsTo (named edit.now) 1 tree.root path → HasWay tree edit.now result }
{
    match edit {
        Edit::Text(_, _) => {
            let site = Site::Stay;
            Some(Way { path, site })
        }
        Edit::Attr(_, _, _) => {
            let site = Site::Stay;
            Some(Way { path, site })
        }
        Edit::Insert(_, index, _) => {
            let site = Site::Put(*index as usize);
            Some(Way { path, site })
        }
        Edit::Remove(_) => {
            if path.level() == 1 {
                return None;
            }
            let (path, place) = path.split();
            let site = Site::Take(place);
            Some(Way { path, site })
        }
        Edit::Replace(_, _) => {
            if path.level() == 1 {
                return None;
            }
            let (path, place) = path.split();
            let site = Site::Swap(place);
            Some(Way { path, site })
        }
        Edit::Graft(_, index, _) => {
            let site = Site::Put(*index as usize);
            Some(Way { path, site })
        }
        Edit::Swap(_, _) => {
            if path.level() == 1 {
                return None;
            }
            let (path, place) = path.split();
            let site = Site::Swap(place);
            Some(Way { path, site })
        }
    }
}
