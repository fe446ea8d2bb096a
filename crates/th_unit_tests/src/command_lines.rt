// Command lines with their answers, by hand from the rules of docs/COMMANDS.md.
use std::alloc::{AllocError, Global};
use std::process::Abort;
use std::test::Fail as TestFail;
use th_base::{Name, Seq};
use th_words::{Command, read_words};

fn append(text: &mut String, files: &Seq<Name>) -> Result<(), AllocError> {
    for file in files.as_slice() {
        text.push_str(" ")?;
        text.push_str(file.as_str())?;
    }
    Ok(())
}

// A command as one line: its name, its values in the order of the table, and its operands.
fn shown(alloc: Global, command: &Command) -> Result<String, AllocError> {
    match command {
        Command::Check {
            budget,
            workers,
            list,
            lifecycle,
            files,
        } => {
            let list = match list {
                None => "-",
                Some(name) => name.as_str(),
            };
            let mut text = format!(in alloc; "check {budget} {workers} {list} {lifecycle:?}")?;
            append(&mut text, files)?;
            Ok(text)
        }
        Command::Run {
            script,
            fuel,
            lifecycle,
            files,
        } => {
            let script = script.as_str();
            let mut text = format!(in alloc; "run {script} {fuel} {lifecycle:?}")?;
            append(&mut text, files)?;
            Ok(text)
        }
    }
}

fn answer(alloc: Global, words: &[String]) -> Result<String, AllocError> {
    match read_words(alloc, words) {
        Ok(command) => shown(alloc, &command),
        Err(fail) => format!(in alloc; "{fail}"),
    }
}

// The words of a line stand one space apart, so two spaces hold an empty word.
fn row<R: Abort + AllocGlobal>(rt: &R, line: &str, want: &str) -> Result<(), AllocError> {
    let mut words: Vec<String> = Vec::new(rt.alloc());
    for word in line.split(' ') {
        words.push(String::from_str(rt.alloc(), word)?)?;
    }
    let got = answer(rt.alloc(), words.as_slice())?;
    assert_eq!(rt; got.as_str(), want, "{line}");
    Ok(())
}

#[test]
fn commands(rt: HostRuntime) -> Result<(), TestFail> {
    let none: Vec<String> = Vec::new(rt.alloc());
    let got = answer(rt.alloc(), none.as_slice())?;
    assert_eq!(rt; got.as_str(), "no command");
    row(&rt, "", "unknown command")?;
    row(&rt, "chec A", "unknown command")?;
    row(&rt, "--help", "unknown command")?;
    row(&rt, "--version", "unknown command")?;
    row(&rt, "gen 20", "unknown command")?;
    row(&rt, "--budget 1 check A", "unknown command")?;
    row(&rt, "check A", "check 2000 1 - Any A")?;
    row(&rt, "run A --script S", "run S 1000000 Any A")?;
    Ok(())
}

#[test]
fn options_of_check(rt: HostRuntime) -> Result<(), TestFail> {
    row(&rt, "check A B A", "check 2000 1 - Any A B A")?;
    row(
        &rt,
        "check --budget 0 A --workers 16 B",
        "check 0 16 - Any A B",
    )?;
    row(
        &rt,
        "check A --lifecycle chart --list L",
        "check 2000 1 L Chart A",
    )?;
    row(&rt, "check --list L", "check 2000 1 L Any")?;
    row(&rt, "check --lifecycle any A", "check 2000 1 - Any A")?;
    row(&rt, "check --budget 50000 A", "check 50000 1 - Any A")?;
    row(&rt, "check --budget 000050000 A", "check 50000 1 - Any A")?;
    row(&rt, "check check", "check 2000 1 - Any check")?;
    row(&rt, "check budget 3", "check 2000 1 - Any budget 3")?;
    row(&rt, "check --list A=B C=D", "check 2000 1 A=B Any C=D")?;
    Ok(())
}

#[test]
fn bad_words_of_check(rt: HostRuntime) -> Result<(), TestFail> {
    row(&rt, "check", "bad words")?;
    row(&rt, "check --budget 1", "bad words")?;
    row(&rt, "check A --budget", "bad words")?;
    row(&rt, "check --budget 50001 A", "bad words")?;
    row(&rt, "check --budget 0000000001 A", "bad words")?;
    row(&rt, "check --budget +1 A", "bad words")?;
    row(&rt, "check --budget 1x A", "bad words")?;
    row(&rt, "check --budget=1 A", "bad words")?;
    row(&rt, "check --budget 1 --budget 1 A", "bad words")?;
    row(&rt, "check --workers 0 A", "bad words")?;
    row(&rt, "check --workers 17 A", "bad words")?;
    row(&rt, "check --lifecycle Any A", "bad words")?;
    Ok(())
}

#[test]
fn shapes_of_words(rt: HostRuntime) -> Result<(), TestFail> {
    row(&rt, "check --list -L A", "bad words")?;
    row(&rt, "check --list --budget 1", "bad words")?;
    row(&rt, "check --list  A", "bad words")?;
    row(&rt, "check A -", "bad words")?;
    row(&rt, "check A -- B", "bad words")?;
    row(&rt, "check  A", "bad words")?;
    row(&rt, "check --fuel 1 A", "bad words")?;
    row(&rt, "check --help A", "bad words")?;
    row(&rt, "check -h A", "bad words")?;
    row(&rt, "check A --Budget 1", "bad words")?;
    Ok(())
}

#[test]
fn words_of_run(rt: HostRuntime) -> Result<(), TestFail> {
    row(&rt, "run --script S --fuel 0 A B", "run S 0 Any A B")?;
    row(
        &rt,
        "run A --fuel 10000000 --lifecycle chart --script S",
        "run S 10000000 Chart A",
    )?;
    row(&rt, "run A", "bad words")?;
    row(&rt, "run --script S", "bad words")?;
    row(&rt, "run --script S --fuel 10000001 A", "bad words")?;
    row(&rt, "run --script S --script T A", "bad words")?;
    row(&rt, "run --script S --list L A", "bad words")?;
    row(&rt, "run --script S --workers 1 A", "bad words")?;
    row(&rt, "run S A --fuel", "bad words")?;
    Ok(())
}
