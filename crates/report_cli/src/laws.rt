// Laws of the outcome: these functions do nothing, and their contracts are the laws.
ghost use Rattle.report_cli.specs.Laws.{OneAlone, OneOutcome, OneProgramSize};

/// Units have one first refusal alone at most: its status and its line; and none where each is read alone.
#[tactic(auto, using(crate::proofs::Exclusion::one_alone_first))]
pub fn one_alone()
    ensures { OneAlone }
{}

/// Units have one refusal at most (C11 6.4 to 6.9): its status and its line. It is that of the first text which isn't right by its tokens,
/// its syntax, its names or its rows, else that of all texts together for a fault of linking, for their nodes or for their words. Texts
/// that denote a program are refused for a limit alone, and what is accepted, units within the limits with a script whose lines ask
/// questions, isn't refused.
#[tactic(auto, using(crate::proofs::Together::one_outcome))]
pub fn one_outcome()
    ensures { OneOutcome }
{}

/// The right units of a text are alike, but for the numbers of entities and nodes (`right_laws`). So all programs that texts denote have as
/// many nodes, and as many words of rows (`twin_words`); and whether they pass a limit of 2^24, and with which number, is one.
#[tactic(auto, using(crate::proofs::ProgramSize::one_program_size))]
pub fn one_program_size()
    ensures { OneProgramSize }
{}
