//! The reports and the notices of a session.

ghost use Rattle.sim_session_laws.specs.Reports.{NoticesNeedBends, NoticesShowDifferences, ReportsAreMarks};

/// Each report that the server has heard was the mark of its sender, at some moment of the session. So a notice shows that its
/// client and another one were apart at its turn: a full one in the digest, a quick one in the clock or in where entities stand.
pub fn notices_show_differences()
    ensures marks { ReportsAreMarks }
    ensures apart { NoticesShowDifferences }
{}

/// And where no client is bent, all reports of a turn say the same, and nothing is noticed.
pub fn notices_need_bends()
    ensures { NoticesNeedBends }
{}
