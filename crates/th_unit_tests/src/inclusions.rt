ghost use Rattle.std.specs.Prelude.{◌≡◌, ◌<◌, length, IfOk, OnOk};
ghost use Rattle.th_incl.specs.Least.{IsInRange};

use std::alloc::Global;
use std::test::Fail;
use th_base::{IdSet, Same, Seq};
use th_incl::{Constraints, Inclusion, Solver, solve};

// Sets as they are written here, each ended by `.`: the numbers are the letters' codes.
fn sets_of(alloc: Global, text: &[u8]) -> Result<Vec<IdSet>, Fail> {
    let mut sets = Vec::new(alloc);
    let mut set = IdSet::new(alloc);
    for letter in text {
        if *letter == b'.' {
            sets.push(set)?;
            set = IdSet::new(alloc);
        } else {
            set.insert(u32::from(*letter))?;
        }
    }
    Ok(sets)
}

// Constraints over so many sets, with filters and nothing else.
fn bare(alloc: Global, sets: usize, filters: &[u8]) -> Result<Constraints, Fail>
    ensures { IfOk result (λ c. IsInRange c) }
{
    Ok(Constraints {
        sets,
        base: Seq::new(alloc),
        copies: Seq::new(alloc),
        filters: Seq::from_vec(sets_of(alloc, filters)?),
    })
}

// A solver over the sets and filters of constraints, with nothing else.
fn solver_for(alloc: Global, constraints: &Constraints) -> Result<Solver, Fail>
    ensures sets { IfOk result (λ s. s.constraints.sets ≡ constraints.now.sets) }
    ensures filters { IfOk result (λ s. length s.constraints.filters ≡ length constraints.now.filters) }
{
    let filters = constraints.filters.copy(alloc)?;
    let solver = Solver::new(alloc, constraints.sets, filters.into_vec())?;
    Ok(solver)
}

// Adds a base pair to constraints and to a solver.
fn add_base(c: &mut Constraints, solver: &mut Solver, set: usize, id: u32) -> Result<(), Fail>
    requires range { IsInRange c.old }
    requires sets { solver.old.constraints.sets ≡ c.old.sets }
    requires filters { length solver.old.constraints.filters ≡ length c.old.filters }
    ensures range { OnOk result (IsInRange c.new) }
    ensures sets { OnOk result (solver.new.constraints.sets ≡ c.new.sets) }
    ensures filters { OnOk result (length solver.new.constraints.filters ≡ length c.new.filters) }
{
    if set >= c.sets {
        return Err("no such set".into());
    }
    c.base.push((set, id))?;
    solver.add_base(set, id)?;
    Ok(())
}

// Adds an inclusion to constraints and to a solver.
fn add_copy(c: &mut Constraints, solver: &mut Solver, j: Inclusion) -> Result<(), Fail>
    requires range { IsInRange c.old }
    requires sets { solver.old.constraints.sets ≡ c.old.sets }
    requires filters { length solver.old.constraints.filters ≡ length c.old.filters }
    ensures range { OnOk result (IsInRange c.new) }
    ensures sets { OnOk result (solver.new.constraints.sets ≡ c.new.sets) }
    ensures filters { OnOk result (length solver.new.constraints.filters ≡ length c.new.filters) }
{
    if j.from >= c.sets || j.to >= c.sets || j.filter >= c.filters.len() {
        return Err("no such set or filter".into());
    }
    c.copies.push(j)?;
    solver.add_copy(j)?;
    Ok(())
}

fn are_same(left: &[IdSet], right: &[IdSet]) -> bool {
    if left.len() != right.len() {
        return false;
    }
    for (a, b) in left.iter().zip(right) {
        if !a.same(b) {
            return false;
        }
    }
    true
}

fn pairs(sets: &[IdSet]) -> u64 {
    let mut pairs = 0u64;
    for set in sets {
        pairs = pairs.saturating_add(set.len() as u64);
    }
    pairs
}

// Adds base pairs, each a set's digit and a letter, with a run after each.
fn add_bases(
    alloc: Global,
    c: &mut Constraints,
    solver: &mut Solver,
    text: &[u8],
) -> Result<(), Fail>
    requires range { IsInRange c.old }
    requires sets { solver.old.constraints.sets ≡ c.old.sets }
    requires filters { length solver.old.constraints.filters ≡ length c.old.filters }
    ensures range { OnOk result (IsInRange c.new) }
    ensures sets { OnOk result (solver.new.constraints.sets ≡ c.new.sets) }
    ensures filters { OnOk result (length solver.new.constraints.filters ≡ length c.new.filters) }
{
    for pair in text.chunks(2) {
        if let [set, letter] = pair {
            add_base(c, solver, digit(*set), u32::from(*letter))?;
            solver.run(alloc)?;
        }
    }
    Ok(())
}

// Adds inclusions, each by the digits of two sets and of a filter, with a run after each.
fn add_copies(
    alloc: Global,
    c: &mut Constraints,
    solver: &mut Solver,
    text: &[u8],
) -> Result<(), Fail>
    requires range { IsInRange c.old }
    requires sets { solver.old.constraints.sets ≡ c.old.sets }
    requires filters { length solver.old.constraints.filters ≡ length c.old.filters }
    ensures range { OnOk result (IsInRange c.new) }
    ensures sets { OnOk result (solver.new.constraints.sets ≡ c.new.sets) }
    ensures filters { OnOk result (length solver.new.constraints.filters ≡ length c.new.filters) }
{
    for triple in text.chunks(3) {
        if let [from, to, filter] = triple {
            let inclusion = Inclusion {
                from: digit(*from),
                to: digit(*to),
                filter: digit(*filter),
            };
            add_copy(c, solver, inclusion)?;
            solver.run(alloc)?;
        }
    }
    Ok(())
}

fn digit(letter: u8) -> usize {
    (letter % 16) as usize
}

// A system of inclusions as text, with the number of its sets.
#[derive(Drop)]
struct Case<'a> {
    sets: usize,
    base: &'a [u8],
    copies: &'a [u8],
    filters: &'a [u8],
}

// The sets where the base pairs come first, with a run after each addition.
fn bases_first(alloc: Global, s: &Case) -> Result<Vec<IdSet>, Fail> {
    let mut c = bare(alloc, s.sets, s.filters)?;
    let mut solver = solver_for(alloc, &c)?;
    add_bases(alloc, &mut c, &mut solver, s.base)?;
    add_copies(alloc, &mut c, &mut solver, s.copies)?;
    Ok(solver.into_sets())
}

// The sets where the inclusions come first, with a run after each addition.
fn copies_first(alloc: Global, s: &Case) -> Result<Vec<IdSet>, Fail> {
    let mut c = bare(alloc, s.sets, s.filters)?;
    let mut solver = solver_for(alloc, &c)?;
    add_copies(alloc, &mut c, &mut solver, s.copies)?;
    add_bases(alloc, &mut c, &mut solver, s.base)?;
    Ok(solver.into_sets())
}

// The sets from nothing.
fn at_once(alloc: Global, s: &Case) -> Result<Vec<IdSet>, Fail> {
    let mut c = bare(alloc, s.sets, s.filters)?;
    let mut solver = solver_for(alloc, &c)?;
    add_bases(alloc, &mut c, &mut solver, s.base)?;
    add_copies(alloc, &mut c, &mut solver, s.copies)?;
    Ok(solve(alloc, &c)?)
}

// Whether all three are these sets.
fn solves(
    alloc: Global,
    base: &[u8],
    copies: &[u8],
    filters: &[u8],
    least: &[u8],
) -> Result<bool, Fail> {
    let least = sets_of(alloc, least)?;
    let case = Case {
        sets: least.len(),
        base,
        copies,
        filters,
    };
    is_each(&case, alloc, least.as_slice())
}

fn is_each(case: &Case, alloc: Global, least: &[IdSet]) -> Result<bool, Fail> {
    if !are_same(bases_first(alloc, case)?.as_slice(), least) {
        return Ok(false);
    }
    if !are_same(copies_first(alloc, case)?.as_slice(), least) {
        return Ok(false);
    }
    Ok(are_same(at_once(alloc, case)?.as_slice(), least))
}

// The least sets were found by a program that goes over all inclusions until nothing changes.
#[test]
fn small_systems_are_solved(rt: HostRuntime) -> Result<(), Fail> {
    let alloc = rt.alloc();
    assert!(rt; solves(alloc, b"0e0f", b"010121211", b"e.ef.", b"ef.e.e.")?);
    assert!(rt;
        solves(
            alloc,
            b"2i0b",
            b"010120200230",
            b"abcdefghij.",
            b"bi.bi.bi.bi."
        )?
    );
    assert!(rt; solves(alloc, b"0c0c1d", b"000110011", b"cd..", b"c.d.")?);
    assert!(rt;
        solves(
            alloc,
            b"0a0b0c0h",
            b"010011122202",
            b"ab.bc.ch.",
            b"abch.abc.c."
        )?
    );
    assert!(rt;
        solves(
            alloc,
            b"0k0l4m",
            b"010021132232342413",
            b"km.l.klm.m.",
            b"kl.km.l.klm.klm."
        )?
    );
    assert!(rt; solves(alloc, b"", b"", b"", b".")?);
    Ok(())
}

// A chain of two sets through the filter {a, b, c, d}, with base numbers in the first.
fn chain(alloc: Global, base: &[u8]) -> Result<Solver, Fail>
    ensures sets { IfOk result (λ s. s.constraints.sets ≡ 2) }
    ensures filters { IfOk result (λ s. length s.constraints.filters ≡ 1) }
{
    let mut filters = Vec::new(alloc);
    let mut filter = IdSet::new(alloc);
    for letter in b"abcd" {
        filter.insert(u32::from(*letter))?;
    }
    filters.push(filter)?;
    let mut solver = Solver::new(alloc, 0, filters)?;
    solver.grow(alloc, 2)?;
    for letter in base {
        solver.add_base(0, u32::from(*letter))?;
    }
    copy(&mut solver, 0, 1)?;
    Ok(solver)
}

fn copy(solver: &mut Solver, from: usize, to: usize) -> Result<(), Fail>
    requires from { from < solver.old.constraints.sets }
    requires to { to < solver.old.constraints.sets }
    requires filters { length solver.old.constraints.filters ≡ 1 }
    ensures sets { OnOk result (solver.new.constraints.sets ≡ solver.old.constraints.sets) }
    ensures filters { OnOk result (length solver.new.constraints.filters ≡ 1) }
{
    solver.add_copy(Inclusion {
        from,
        to,
        filter: 0,
    })?;
    Ok(())
}

fn holds(alloc: Global, solver: &Solver, want: &[u8]) -> Result<bool, Fail> {
    let want = sets_of(alloc, want)?;
    Ok(are_same(solver.sets(), want.as_slice()))
}

#[test]
fn additions_wait_for_a_run(rt: HostRuntime) -> Result<(), Fail> {
    let alloc = rt.alloc();
    let mut solver = chain(alloc, b"ch")?;
    assert!(rt; holds(alloc, &solver, b"..")?);
    solver.run(alloc)?;
    assert!(rt; holds(alloc, &solver, b"ch.c.")?);
    solver.grow(alloc, 1)?;
    copy(&mut solver, 1, 2)?;
    assert!(rt; holds(alloc, &solver, b"ch.c..")?);
    solver.run(alloc)?;
    assert!(rt; holds(alloc, &solver, b"ch.c.c.")?);
    Ok(())
}

// Whether the sets of a chain, which hold four pairs, are within a limit, and how many they hold
// then; a later run without a limit gives them all.
fn chain_within(alloc: Global, limit: u64) -> Result<(bool, u64), Fail> {
    let mut solver = chain(alloc, b"ad")?;
    let within = solver.run_within(alloc, limit)?;
    let held = pairs(solver.sets());
    solver.run(alloc)?;
    if !holds(alloc, &solver, b"ad.ad.")? {
        return Err("the later run gives other sets".into());
    }
    Ok((within, held))
}

#[test]
fn limits_are_exact(rt: HostRuntime) -> Result<(), Fail> {
    let alloc = rt.alloc();
    assert!(rt; chain_within(alloc, 0)? == (false, 0));
    assert!(rt; chain_within(alloc, 3)? == (false, 2));
    assert!(rt; chain_within(alloc, 4)? == (true, 4));
    assert!(rt; chain_within(alloc, 5)? == (true, 4));
    Ok(())
}

// The next number of a row that looks random.
fn next(state: &mut u32) -> usize {
    *state = state.wrapping_mul(1_664_525).wrapping_add(1_013_904_223);
    (*state >> 16) as usize
}

const SETS: usize = 20;

// Adds the base pair or the inclusion that the row has next.
fn add_any(c: &mut Constraints, solver: &mut Solver, state: &mut u32) -> Result<(), Fail>
    requires range { IsInRange c.old }
    requires sets { solver.old.constraints.sets ≡ c.old.sets }
    requires filters { length solver.old.constraints.filters ≡ length c.old.filters }
    ensures range { OnOk result (IsInRange c.new) }
    ensures sets { OnOk result (solver.new.constraints.sets ≡ c.new.sets) }
    ensures filters { OnOk result (length solver.new.constraints.filters ≡ length c.new.filters) }
{
    let is_base = next(state) % 2 == 0;
    let from = next(state) % SETS;
    let to = next(state) % SETS;
    let filter = next(state) % 4;
    if is_base {
        return add_base(c, solver, from, 97 + to as u32);
    }
    add_copy(c, solver, Inclusion { from, to, filter })
}

// Runs after each of so many additions, and how many pairs the sets hold then; `None` where the
// solution from nothing is another one.
fn pairs_after(alloc: Global, additions: u32) -> Result<Option<u64>, Fail> {
    let mut c = bare(alloc, SETS, b"abcdefghijklmnop.abcdfin.bej..")?;
    let mut solver = solver_for(alloc, &c)?;
    let mut state = 1;
    for _ in 0..additions {
        add_any(&mut c, &mut solver, &mut state)?;
        solver.run(alloc)?;
    }
    let solved = solve(alloc, &c)?;
    if !are_same(solver.sets(), solved.as_slice()) {
        return Ok(None);
    }
    Ok(Some(pairs(solver.sets())))
}

// The numbers of pairs were found as the least sets above.
#[test]
fn runs_agree_with_the_solution_from_nothing(rt: HostRuntime) -> Result<(), Fail> {
    let alloc = rt.alloc();
    assert!(rt; pairs_after(alloc, 10)? == Some(5));
    assert!(rt; pairs_after(alloc, 40)? == Some(32));
    assert!(rt; pairs_after(alloc, 80)? == Some(98));
    Ok(())
}
