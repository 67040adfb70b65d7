//! Which workers and askers come to the gate. One thread that does the pieces of both waits at the gate in vain.
use crate::calls::is_answered;
use crate::gates::{AskerFirst, Both, JOBS};
use crate::rows::ROWS;
use crate::tests::case_of;
use pta_base::OutOfMemory;

/// The first of the worked rows that begins so; an empty one, which no call answers, where there is none.
fn row_with(beginning: &str) -> &'static str {
    for row in ROWS.split("~\n") {
        if row.starts_with(beginning) {
            return row;
        }
    }
    ""
}

#[test]
fn two_workers_meet_at_the_gate(rt: HostRuntime) -> Result<(), OutOfMemory> {
    let gate = Both::new(0, 0);
    let case = case_of(row_with("--workers 2 list.i`"), 0);
    let answered = is_answered(&rt, rt.alloc(), &case, &gate)?;
    assert!(rt; answered && gate.have_met(), "{answered}");
    Ok(())
}

const TWO_UNITS: &str =
    "--workers 2 a.i b.i`a.i b.i`0`int x; int main(void){return 0;}^extern int x; int *p=&x;`pta 1
set p: x
end
`";

#[test]
fn two_units_are_read_at_once(rt: HostRuntime) -> Result<(), OutOfMemory> {
    let gate = Both::new(JOBS, 0);
    let answered = is_answered(&rt, rt.alloc(), &case_of(TWO_UNITS, 0), &gate)?;
    assert!(rt; answered && gate.have_met(), "{answered}");
    Ok(())
}

const TWO_POINTERS: &str = "a.i`a.i`0`int x,y,*p,*q; int main(void){p=&x;q=&y;return 0;}`pta 1
set p: x
set q: y
end
`";

#[test]
fn one_worker_comes_alone(rt: HostRuntime) -> Result<(), OutOfMemory> {
    let gate = Both::new(0, 1);
    let answered = is_answered(&rt, rt.alloc(), &case_of(TWO_POINTERS, 0), &gate)?;
    assert!(rt; answered && gate.highest() == 0, "{answered}");
    Ok(())
}

const TWO_ASKERS: &str =
    "--workers 2 --ask s --desk a.i`a.i s`0`int x,*p,*q,*r; int main(void){p=&x;return 0;}^points p x
points q x
alias p p
`ask 1
yes
no
yes
end
`";

#[test]
fn two_askers_beside_the_workers(rt: HostRuntime) -> Result<(), OutOfMemory> {
    let gate = Both::new(400, 0);
    let answered = is_answered(&rt, rt.alloc(), &case_of(TWO_ASKERS, 0), &gate)?;
    assert!(rt;
        answered && gate.have_met() && gate.count() == 3,
        "{answered}"
    );
    Ok(())
}

const ONE_ASKER: &str =
    "--workers 2 --ask s a.i`a.i s`0`int x,*p,*q,*r; int main(void){p=&x;return 0;}^points p x
points q x
`ask 1
yes
no
end
`";

#[test]
fn asker_beside_the_workers(rt: HostRuntime) -> Result<(), OutOfMemory> {
    let gate = AskerFirst::new(2);
    let answered = is_answered(&rt, rt.alloc(), &case_of(ONE_ASKER, 0), &gate)?;
    let counts = gate.counts();
    assert!(rt; answered && counts == [1, 0, 16], "{answered} {counts:?}");
    Ok(())
}
