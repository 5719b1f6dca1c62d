//! Laws of labels, and of a search that takes cells by their cost and an estimate. These hold for every estimate that falls
//! along a step by at most what the step costs, not only for the one that is used here.

ghost use Rattle.sim_search.specs.{Floods.{LabelsTell, NoLabelIsClosed}, Queues.{LoweringKeeps, TakenInOrder, TakenIsLeast, TakingKeeps}};

/// A cell that was taken has its least cost.
pub fn taken_is_least()
    ensures { TakenIsLeast }
{}

/// Cells are taken by ascending cost and estimate.
pub fn taken_in_order()
    ensures { TakenInOrder }
{}

/// A search stays one where a step from a cell at its key lowers the cost of another, and where a cell at its key is
/// taken, all steps from which are reckoned with.
pub fn search_goes_on()
    ensures lowering { LoweringKeeps }
    ensures taking { TakingKeeps }
{}

/// A cell other than the start is reached just where it has the label of an open cell that is the start or lies to its
/// east, north, west or south.
pub fn labels_tell()
    ensures { LabelsTell }
{}

/// A cell of the ground has no label just where it is closed.
pub fn no_label_is_closed()
    ensures { NoLabelIsClosed }
{}
