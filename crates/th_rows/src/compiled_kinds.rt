// Kinds of the slots in code that `javac` made, as its stack maps have them at merges.
use crate::class_files::COUNTER;
use crate::compiled_programs::SHAPES;
use crate::kinds_of_code::told;
use std::alloc::Global;
use std::process::Abort;
use std::test::Fail;

// The methods of examples/counter/Counter.java: a constructor, two switches with a choice of two values, a
// loop over longs, and a try whose handler isn't followed.
const COUNTER_KINDS: &str = "\
0:R| 1:R|R 4:R| 5:R|R 8:R|RLH 11:R| 12:R|R 13:R|RI 15:R|RR 18:R| \
0:RI| 1:RI|I 28:RI| 30:RI|I 31:RI| 33:RI|I 34:RI| 35:RI|I 37:RI|II 40:RI| 41:RI|I 44:RI| 45:RI|I \
0:RI| 1:RI|I 28:RI| 29:RI|I 30:RI| 31:RI|I 32:RI| 33:RI|I \
0:RIU| 1:RIU|I 2:RII| 3:RII|I 4:RII|IR 7:RII|IR 8:RII|II 11:RII| 12:RII|R 15:RII|R 16:RII|RI 17:RII|RIRI \
18:RII|RII 19:RII|RIII 20:RII|RII 21:RII| 24:RII| 27:RII| 28:RII|R 29:RII|RR 32:RII|RLH 35:RII|RLHLH \
36:RII|RLH 37:RII|RLHI 38:RII|RLHLH 39:RII|RLH 42:RII| \
0:RRU| 1:RRU|R 4:RRU|I 7:RRU| 8:RRU|R 11:RRU|R 14:RRU|LH 15:RRU|LHR 18:RRU|LHLH 19:RRU|I 22:RRU| 23:RRU|I \
26:RRU| 27:RRU|I";

// The methods of examples/shapes/Shapes.java: a constructor that fills an array, a number, and a loop whose
// body alone has a shape in its last local, with a choice between two calls.
const SHAPES_KINDS: &str = "\
0:R| 1:R|R 4:R| 5:R|R 6:R|RI 9:R|RR 10:R|RRR 11:R|RRRI 14:R|RRRIR 15:R|RRRIRR 16:R|RRRIRRI 19:R|RRRIR \
20:R|RR 21:R|RRR 22:R|RRRI 25:R|RRRIR 26:R|RRRIRR 29:R|RRRIRRI 32:R|RRRIR 33:R|RR 36:R| \
0:| 1:|I \
0:RUUU| 1:RUUU|I 2:RIUU| 3:RIUU|I 4:RIIU| 5:RIIU|I 6:RIIU|IR 9:RIIU|IR 10:RIIU|II 13:RIIU| 14:RIIU|R \
17:RIIU|R 18:RIIU|RI 19:RIIU|R 20:RIIR| 21:RIIR|I 22:RIIR|IR 25:RIIR|II 28:RIIR|I 29:RIIR|IR 32:RIIR|IR \
37:RIIR|II 40:RIIR|I 41:RIIR|IR 46:RIIR|II 47:RIIR|I 48:RIIR| 51:RIIR| 54:RIIU| 55:RIIU|I";

// Each line of what is told of a class is the next one of a table.
fn agree(rt: &impl Abort, alloc: Global, class: &[u8], want: &str) -> Result<(), Fail> {
    let found = told(alloc, class)?;
    assert_eq!(rt; found.as_str().trim_start(), want);
    Ok(())
}

#[test]
fn compiled_methods_have_kinds(rt: HostRuntime) -> Result<(), Fail> {
    agree(&rt, rt.alloc(), COUNTER, COUNTER_KINDS)?;
    agree(&rt, rt.alloc(), SHAPES, SHAPES_KINDS)
}
