//! What mends a fault.

use remedies::Change;

/// What mends a fault: changes of the kinds from a place on. Its places are those of the copy as
/// the repairs before it have left it, but for `from`.
#[derive(Debug, PartialEq, Eq, Drop)]
pub struct Repair {
    /// The number of the first kind with which no sentence goes on, or that of the end.
    pub fault: usize,
    /// What could have stood there: the token rules in file order, and then the end.
    pub expected: Vec<Option<usize>>,
    /// The number of the kind from which on there are changes: one of the last before the fault,
    /// or an earlier one where kinds are left out up to where something begins anew.
    pub at: usize,
    /// The number of the same kind in what is mended.
    pub from: usize,
    /// What is done from there on.
    pub changes: Vec<Change>,
    /// What would mend it as cheaply, from the same kind on.
    pub others: Vec<Vec<Change>>,
}
