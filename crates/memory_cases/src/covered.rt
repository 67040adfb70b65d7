// Each state of a run is covered by the least sets, and none by sets of nothing where memory has a pointer from the start on.
use crate::runs::{ENTERED, PROGRAMS, TABLE};
use crate::watched::{End, Sets, watch_text};
use std::test::Fail;

/// The words from which runs go on, beside those of 0.
const FIRSTS: [u64; 3] = [81_985_529_216_486_895, 12_297_829_382_473_034_411, 7];

/// More of them, for runs that a word may end at once.
const MORE: [u64; 9] = [
    81_985_529_216_486_895,
    12_297_829_382_473_034_411,
    7,
    1_311_768_467_463_790_320,
    3_141_592_653_589_793_238,
    2_718_281_828_459_045_235,
    14_142_135_623_730_950_488,
    17_320_508_075_688_772_935,
    5_772_156_649_015_328_606,
];

/// How a row says that its run ends where all words are 0.
fn end_of(word: &str) -> End {
    match word {
        "finished" => End::Finished,
        "stopped" => End::Stopped,
        _ => End::Going,
    }
}

#[test]
fn each_state_is_covered(rt: HostRuntime) -> Result<(), Fail> {
    for (at, row) in PROGRAMS.split("~\n").enumerate() {
        let mut fields = row.split('`');
        let end = end_of(fields.next().unwrap_or(""));
        let text = fields.next().unwrap_or("");
        let runs = watch_text(&rt, rt.alloc(), "", text, &FIRSTS, Sets::Least)?;
        let is_right = runs.end == end && runs.covered == runs.states && runs.fewest >= 8;
        assert!(rt; is_right, "row {at}");
    }
    Ok(())
}

#[test]
fn each_state_is_covered_where_entries_are_named(rt: HostRuntime) -> Result<(), Fail> {
    for (at, row) in ENTERED.split("~\n").enumerate() {
        let mut fields = row.split('`');
        let entries = fields.next().unwrap_or("");
        let text = fields.next().unwrap_or("");
        let runs = watch_text(&rt, rt.alloc(), entries, text, &MORE, Sets::Least)?;
        let is_right = runs.end == End::Going && runs.covered == runs.states && runs.states > 1000;
        assert!(rt;
            is_right,
            "row {at}: {} of {} states",
            runs.covered, runs.states
        );
    }
    Ok(())
}

#[test]
fn sets_of_nothing_cover_no_pointer(rt: HostRuntime) -> Result<(), Fail> {
    let runs = watch_text(&rt, rt.alloc(), "", TABLE, &[], Sets::Nothing)?;
    let is_right = runs.end == End::Finished && runs.states > 20 && runs.covered == 0;
    assert!(rt; is_right, "{} of {} states", runs.covered, runs.states);
    Ok(())
}
