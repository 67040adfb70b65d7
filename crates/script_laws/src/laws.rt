//! That what is told has one status and one line, whatever program its units denote.
ghost use Rattle.script_laws.specs.Scripted.{OneScript, OneFate};

/// The programs that texts denote take the same scripts of questions, and the same words of a run: where one of them with a system takes
/// such a text, all take it. It is refused with one answer, for its length, at one line of a script, the first one that isn't in the
/// grammar or names nothing of the right sort, or at one byte of words; and it isn't refused where one of these programs takes it.
pub fn one_script()
    ensures { OneScript }
{}

/// Two answers to what is told, and to words with it, have one status and one line of `err`, and a report, a summary or answers to a script
/// are the same bytes, so two calls of the same words with the same texts print the same; and so do two calls of right words that ask for
/// the same by other numbers of workers. Two refusals are one answer, and what is printed, a report, the answers to a script or the text of
/// a run, shuts out each refusal. Units with one program that has a system, and takes what is read beside them, are accepted. Of what
/// functions touch and of where a run may stop it isn't said here that two texts are the same bytes; nor that the runs of two programs
/// which the units denote are one, so the status of a run is 0 or 11 by this law.
pub fn one_fate()
    ensures { OneFate }
{}
