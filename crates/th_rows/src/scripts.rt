// The form of scripts, and the handlers.
use std::test::Fail;
use th_harness::{ScriptError, check_form, handlers};

// A line before each script: the number of its first bad line, or none.
#[test]
fn scripts_have_a_form(rt: HostRuntime) -> Result<(), Fail> {
    let rows: [(&str, Option<u32>); 7] = [
        ("", None),
        ("\n\nlaunch Act\nevent 1 onCreate bundle", None),
        ("launch Act\nevent 1 onDestroy\n", None),
        ("launch Act\n\nevent 1 onCreate bundle \n", Some(3)),
        ("launch\nstop", Some(1)),
        ("event 123456 onStart\n", Some(1)),
        ("event 1 onStart\r\n", Some(1)),
    ];
    for (script, line) in &rows {
        assert_eq!(rt; check_form(script.as_bytes()).err(), *line, "in {script}");
    }
    Ok(())
}

#[test]
fn handlers_are_eight(rt: HostRuntime) {
    let all = handlers();
    assert_eq!(rt; all[0], ("onCreate", "(Landroid/os/Bundle;)V"));
    assert_eq!(rt; all[6], ("onDestroy", "()V"));
}

#[test]
fn faults_are_told(rt: HostRuntime) -> Result<(), Fail> {
    let line = format!(in rt.alloc(); "{}", ScriptError::Line(3))?;
    assert_eq!(rt; line.as_str(), "script line 3");
    let event = format!(in rt.alloc(); "{}", ScriptError::Event(12))?;
    assert_eq!(rt; event.as_str(), "script event 12");
    Ok(())
}
