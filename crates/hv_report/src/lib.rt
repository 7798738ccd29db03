//! The report on a run: its bytes, written piece by piece without memory, and the law that no two reports have the same bytes.
#![tactic(auto)]

mod law;
mod report;
mod writing;

pub use law::report_law;
pub use report::{Report, SessionReport, SessionReports, Stats};
pub use writing::write_report;
