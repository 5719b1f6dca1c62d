//! What reports show and hide.

ghost use Rattle.sim_plain_session.specs.Marks.{BendsAreHidden, FullIsDigest, OthersAreQuick};

/// At a full turn a report shows all of its client's state. At any other it shows the clock and the places alone, and so no
/// bend before something comes of it.
pub fn reports_are_full_or_quick()
    ensures full { FullIsDigest }
    ensures others { OthersAreQuick }
    ensures hidden { BendsAreHidden }
{}
