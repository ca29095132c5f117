//! The types whose shape or layout counts.

use ob_tree::{List, QName};

/// The names of types that count, in the order of the walk and as often as they came up; basic
/// types have none.
#[derive(Drop)]
pub struct Noted {
    /// Those whose shape counts, with the shapes of all types near them.
    pub shapes: List<QName>,
    /// Those in whose words the words of records are counted: the layouts of these records count.
    pub layouts: List<QName>,
}
