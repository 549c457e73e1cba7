//! What several kinds share: how the numbers, boxes, pulls, elements and metrics of a case's value
//! are read, and how places and marks are written.

mod boxes; // boxes
mod cells; // the cells of a table that may span
mod elements; // elements
mod numbers; // sizes, numbers, lists of them
mod places; // places and marks
mod pulls; // pulls
mod with_metrics; // kinds whose values name metrics

pub use boxes::{boxes_in, stored_box, wide_box};
pub use cells::rows_in;
pub use elements::element_in;
pub use numbers::{add_numbers, items_in, items_of, numbers_in, size_in, stored};
pub use places::{add_mark, add_place};
pub use pulls::{add_pull, pull_in, stretch_in};
pub use with_metrics::{ByMetrics, by_metrics};
