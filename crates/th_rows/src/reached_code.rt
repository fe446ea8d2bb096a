// Code with each way on, and which of its offsets are reached.
use std::alloc::Global;
use std::test::Fail;
use th_base::{Relation, Seq};
use th_reach::Reached;
use th_syntax::{Instr, OUTSIDE};

// Whether each of these offsets is reached.
fn reached(alloc: Global, instrs: &[(u32, Instr)], offsets: &[u32]) -> Result<Vec<bool>, Fail> {
    let reached = Reached::new(alloc, instrs)?;
    let mut answers = Vec::new(alloc);
    for offset in offsets {
        answers.push(reached.contains(*offset))?;
    }
    Ok(answers)
}

#[test]
fn straight_code_is_reached(rt: HostRuntime) -> Result<(), Fail> {
    let code = [
        (0, Instr::ALoad(0)),
        (1, Instr::MonitorEnter),
        (2, Instr::Return),
        (3, Instr::Nop),
    ];
    let answers = reached(rt.alloc(), &code, &[0, 1, 2, 3])?;
    assert_eq!(rt; answers.as_slice(), [true, true, true, false].as_slice());
    Ok(())
}

#[test]
fn branches_lead_both_ways(rt: HostRuntime) -> Result<(), Fail> {
    let code = [
        (0, Instr::ILoad(0)),
        (1, Instr::IfZero(Relation::Eq, 8)),
        (4, Instr::Goto(1)),
        (7, Instr::Nop),
        (8, Instr::Throw),
        (9, Instr::IfNull(7)),
    ];
    let answers = reached(rt.alloc(), &code, &[0, 1, 4, 7, 8, 9])?;
    assert_eq!(rt;
        answers.as_slice(),
        [true, true, true, false, true, false].as_slice()
    );
    Ok(())
}

#[test]
fn switches_lead_to_each_target(rt: HostRuntime) -> Result<(), Fail> {
    let alloc = rt.alloc();
    let code = [
        (
            0,
            Instr::TableSwitch {
                low: 1,
                targets: Seq::from_slice(alloc, &[30, 20])?,
                other: 40,
            },
        ),
        (
            20,
            Instr::LookupSwitch {
                pairs: Seq::from_slice(alloc, &[(7, 50)])?,
                other: 60,
            },
        ),
        (30, Instr::Return),
        (31, Instr::Return),
        (40, Instr::Goto(OUTSIDE)),
        (50, Instr::IReturn),
        (60, Instr::LReturn),
        (61, Instr::AReturn),
    ];
    let answers = reached(alloc, &code, &[0, 20, 30, 31, 40, 50, 60, 61, OUTSIDE])?;
    assert_eq!(rt;
        answers.as_slice(),
        [true, true, true, false, true, true, true, false, true].as_slice()
    );
    Ok(())
}

// No code, code that doesn't begin at 0, and an offset that comes twice: the first counts.
#[test]
fn odd_lists_are_taken(rt: HostRuntime) -> Result<(), Fail> {
    let alloc = rt.alloc();
    let answers = reached(alloc, &[], &[0, 1])?;
    assert_eq!(rt; answers.as_slice(), [true, false].as_slice());
    let answers = reached(alloc, &[(1, Instr::Nop), (2, Instr::Return)], &[0, 1, 2])?;
    assert_eq!(rt; answers.as_slice(), [true, false, false].as_slice());
    let answers = reached(
        alloc,
        &[(0, Instr::Return), (0, Instr::Goto(5)), (5, Instr::Return)],
        &[0, 5],
    )?;
    assert_eq!(rt; answers.as_slice(), [true, false].as_slice());
    Ok(())
}
