// The law of reports.
ghost use Rattle.hv_report.specs.Law.{OneReport, OneText};

/// Two reports of the same sessions have the same bytes where they are alike, and only there: they differ in no more than why
/// a page did not serve, which isn't printed. It does nothing: its contract is this law.
pub fn report_law()
    ensures told { OneReport }
    ensures tells { OneText }
{}
