// What a text says of its run: this function does nothing, and its contract is the law.

ghost use Rattle.run_text.specs.Joined.{TextJoinsRun};

/// The text of a run and the states of that run are one: behind its first line a text has what each step that went noted, in order of the
/// steps, and then how the run ended: `went`, where each of them went; `finished`, where the step behind these is at the program's end;
/// `stopped`, where that step isn't defined. It says `stopped` exactly where one of the steps that were asked for isn't defined.
pub fn text_joins_run()
    ensures { TextJoinsRun }
{}
