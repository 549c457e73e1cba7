//! Laws of the definitions. Each is a contract, so that it is proved; the functions compute
//! nothing.
ghost use Rattle.tree_json.specs.Laws.{FirstFaultLaw, TreeLaw};
ghost use Rattle.tree_json.specs.Print.{PrintReadsBack};

/// The fault of a value is that of an element in document order before which no element has one.
#[tactic(auto, using(crate::proofs::Firsts::first_fault))]
pub fn the_first_fault_is_told()
    ensures { FirstFaultLaw }
{}

/// A tree lists the elements of its value in document order, and their ids are their places.
pub fn trees_list_the_elements()
    ensures { TreeLaw }
{}

/// The value that a tree is printed as stands for the same tree, with its ids numbered anew.
#[tactic(auto, using(crate::proofs::RoundTrip::print_reads_back))]
pub fn a_printed_tree_reads_back()
    ensures { PrintReadsBack }
{}
