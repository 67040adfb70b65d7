// A law of reports as JSON: the function does nothing, and its contract is the law.
ghost use Rattle.unit_report.specs.report_json.Lines.{SameLines};

/// The value of JSON that a report is has exactly the lines of the report as text, in their order.
pub fn same_lines()
    ensures { SameLines }
{}
