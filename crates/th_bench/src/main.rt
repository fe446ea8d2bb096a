//! Workloads to be timed.
//!
//! The first word names a workload, the second its size; the answer is a line with the workload's
//! name and what it counted, or for `stores` a class file. There is no clock in it: the script
//! `bench` times the built program. `all` runs each workload at the size that is given.
#![tactic(auto)]

mod classes;
mod facts;
mod generated;
mod inclusions;
mod kinds;
mod linking;
mod paths;
mod programs;
mod reading;
mod refutations;
mod sets;
mod steps;
mod stores;
mod summaries;

use std::alloc::{AllocError, Global};
use std::rt::Env;
use std::{env, io};

// The workloads that count.
const WORKLOADS: [&str; 24] = [
    "merges",
    "fields",
    "subclasses",
    "repeats",
    "chain",
    "grid",
    "runs",
    "few_facts",
    "some_facts",
    "worst_facts",
    "methods",
    "instructions",
    "entries",
    "links",
    "kinds",
    "back_jumps",
    "paths",
    "cuts",
    "facts",
    "initialised",
    "shared_sites",
    "own_sites",
    "generated",
    "steps",
];

// What a workload counted; none where no workload has the name.
fn counted(alloc: Global, name: &str, size: u32) -> Result<Option<u64>, AllocError> {
    match name {
        "merges" => Ok(Some(sets::merges(alloc, size)?)),
        "fields" => Ok(Some(classes::fields(alloc, size)?)),
        "subclasses" => Ok(Some(classes::subclasses(alloc, size)?)),
        "repeats" => Ok(Some(classes::repeats(alloc, size)?)),
        "chain" => Ok(Some(inclusions::chain(alloc, size as usize)?)),
        "grid" => Ok(Some(inclusions::grid(alloc, size)?)),
        "runs" => Ok(Some(inclusions::runs(alloc, size)?)),
        "few_facts" => Ok(Some(refutations::few_facts(alloc, size)?)),
        "some_facts" => Ok(Some(refutations::some_facts(alloc, size)?)),
        "worst_facts" => Ok(Some(refutations::worst_facts(alloc, size)?)),
        "methods" => Ok(Some(reading::methods(alloc, size)?)),
        "instructions" => Ok(Some(reading::instructions(alloc, size)?)),
        "entries" => Ok(Some(reading::entries(alloc, size)?)),
        "links" => Ok(Some(linking::links(alloc, size)?)),
        "kinds" => Ok(Some(kinds::kinds(alloc, size)?)),
        "back_jumps" => Ok(Some(kinds::back_jumps(alloc, size)?)),
        "paths" => Ok(Some(paths::paths(alloc, size)?)),
        "cuts" => Ok(Some(paths::cuts(alloc, size)?)),
        "facts" => Ok(Some(facts::facts(alloc, size)?)),
        "initialised" => Ok(Some(facts::initialised(alloc, size)?)),
        "shared_sites" => Ok(Some(summaries::shared_sites(alloc, size)?)),
        "own_sites" => Ok(Some(summaries::own_sites(alloc, size)?)),
        "generated" => Ok(Some(generated::generated(alloc, size)?)),
        "steps" => Ok(Some(steps::steps(alloc, size)?)),
        _ => Ok(None),
    }
}

fn print_counted(rt: &(impl Print + AllocGlobal), name: &str, size: u32) -> io::Result<()> {
    match counted(rt.alloc(), name, size)? {
        Some(count) => println!(rt; "{name} {count}"),
        None => println!(rt; "no workload {name}"),
    }
}

fn run(rt: &(impl Print + AllocGlobal), name: &str, size: u32) -> io::Result<()> {
    match name {
        "stores" => {
            let file = stores::class_file(rt.alloc(), size)?;
            io::Write::write_all(&mut io::writer(rt), file.as_slice())
        }
        "all" => {
            for each in WORKLOADS {
                print_counted(rt, each, size)?;
            }
            Ok(())
        }
        _ => print_counted(rt, name, size),
    }
}

fn words_of(rt: &(impl Env + AllocGlobal)) -> io::Result<Vec<String>> {
    Ok(env::args(rt)?.skip(1).collect(rt.alloc())?)
}

fn main(rt: HostRuntime) -> io::Result<()> {
    let words = words_of(&rt)?;
    match words.as_slice() {
        [name, size] => match size.as_str().parse::<u32>() {
            Ok(size) => run(&rt, name.as_str(), size),
            Err(_) => println!(rt; "no size"),
        },
        _ => println!(rt; "a workload and a size"),
    }
}
