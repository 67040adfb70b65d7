//! The reports beside the sets: what each function may touch (`effects_text`) and where a run may stop (`stop_report`), over rows for all
//! that the whole solution has (`whole_rows`).
#![tactic(auto)]

pub mod effects_text;
pub mod stop_report;
pub mod whole_rows;
