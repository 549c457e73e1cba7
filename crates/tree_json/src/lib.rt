//! Trees of elements as JSON values: how they are read from one, and printed as one.
//!
//! `read_tree` takes what `serde_json` made of a text and gives the tree, whose ids go by document
//! order. Or it answers the first faulty element, and its fault. `read_part` reads an element that
//! is to stand in a tree by the same rules. `print_tree` gives the canonical print of a tree.
//! Layout waits for none of it.
//!
//! - Models: this project's own JSON form of the elements of MathML Core 2 and 3.
//! - Proved: the answer is `tree_of` of the value (`specs/Reading.antt`), which goes by a list of
//!   its elements (`specs/Elements.antt`, `specs/Faults.antt`); the first fault and the elements of
//!   the tree are those of this list, one by one (`specs/Laws.antt`); `print_tree` is the text of
//!   `value_of` (`specs/Print.antt`), and reading it gives the same tree with its ids numbered
//!   anew.
//! - Knows nothing of: bytes and files, fonts, styles, layout.
//! - Change what is read of an element: `specs/Elements.antt` for a key, `specs/Faults.antt` for a
//!   fault, then the file of the same matter in `src/`, then `rt check`.
#![tactic(auto)]

mod check; // the faults of an element
mod element; // what a JSON value says of an element
mod fault; // TreeFault, ElementFault
mod head; // head_of: the head of an element, from what was looked up of it
mod laws; // of the definitions
mod portion; // a whole tree, or an element
mod print; // the canonical print
mod read;
mod refusal;

pub use fault::TreeFault;
pub use laws::{a_printed_tree_reads_back, the_first_fault_is_told, trees_list_the_elements};
pub use print::print_tree;
pub use read::{read_part, read_tree};
pub use refusal::TreeRefusal;
