//! The law that ties the two definitions of an overlay: the one by paths, which is its meaning, and the recursion, which
//! other definitions cite.

ghost use Rattle.sim_merge.specs.Overlay.{LaidByPath};

/// What is laid over a tree has at each path what the map from paths says, and is refused exactly where a path is.
pub fn laid_by_path()
    ensures { LaidByPath }
{}
