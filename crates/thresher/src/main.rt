//! Says which static fields of class files may keep an Activity alive.
//!
//! The words, the files and the standard streams are handed to `th_top::thresher`, whose clauses
//! say what is written and with which status the program ends; nothing else is done here.
#![tactic(auto)]

use std::process::ExitCode;
use th_base::Fail;
use th_outside::{HostFiles, HostSink, NoGate};
use th_top::{Status, host_words, thresher};

fn main(rt: HostRuntime) -> ExitCode {
    let words = match host_words(&rt) {
        Ok(words) => words,
        Err(Fail::Refused(fault)) => {
            let _ = eprintln!(&rt; "usage: {fault}");
            return ExitCode::from(Status::Usage.code());
        }
        Err(Fail::NoMemory) => {
            let _ = eprintln!(&rt; "no memory");
            return ExitCode::from(Status::NoMemory.code());
        }
    };
    let mut files = HostFiles { rt: &rt, faults: 0 };
    let mut out = HostSink {
        writer: rt.stdout(),
        faults: 0,
    };
    let mut err = HostSink {
        writer: rt.stderr(),
        faults: 0,
    };
    let status = thresher(
        &rt,
        rt.alloc(),
        words.as_slice(),
        &mut files,
        &mut out,
        &mut err,
        &NoGate,
    );
    ExitCode::from(status.code())
}
