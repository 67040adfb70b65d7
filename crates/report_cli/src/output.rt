// The lines of refusals.
ghost use Rattle.report_cli.specs.Outside.{Receives};

use pta_base::Sink;
use unit_report::report_text::write_text;

/// Writes the line of a refusal. A write that fails isn't tried again, and changes nothing else.
pub(crate) fn say<E: Sink>(err: &mut E, line: &[u8])
    ensures { Receives (E.written err.old) (E.written err.new) (E.faults err.old) (E.faults err.new) line.now }
{
    let _ = write_text(err, line);
}
