ghost use Rattle.laws_report.specs.Laws.{ReportTellsOutcomes};

/// Reports of the same blocks that are one text are reports of the same outcomes.
pub fn report_tells_outcomes()
    ensures { ReportTellsOutcomes }
{}
