// Whether the instructions of a code array lead to instructions alone.
ghost use Rattle.std.specs.Prelude.{◌≡◌, ◌∷◌, [], drop};
ghost use Rattle.std.specs.List.{list_all};
ghost use Rattle.th_syntax.specs.Flow.{leads_to};
ghost use Rattle.th_syntax.specs.Decoding.{offset_behind};
ghost use Rattle.th_code.specs.Starts.{first_stray_of, is_marked};

use th_syntax::{Instr, OUTSIDE};

// Whether an instruction starts at an offset, where each offset of the code is marked or not.
fn is_start(starts: &[bool], target: u32) -> bool
    ensures { result ≡ is_marked starts.now target }
{
    match starts.get(target as usize) {
        Some(start) => *start,
        None => false,
    }
}

fn are_starts(starts: &[bool], targets: &[u32]) -> bool
    ensures { result ≡ list_all (is_marked starts.now) targets.now }
{
    targets.iter().all(|target| is_start(starts, *target))
}

fn lead_to_starts(starts: &[bool], pairs: &[(i32, u32)]) -> bool
    ensures { result ≡ list_all (λ pair. is_marked starts.now pair.1) pairs.now }
{
    pairs.iter().all(|pair| is_start(starts, pair.1))
}

// Whether an instruction leads to instructions alone, where the next one starts at `behind`.
#[tactic(auto, using(crate::proofs::Leading::leading))]
fn flows_well(starts: &[bool], behind: u32, instr: &Instr) -> bool
    ensures { result ≡ list_all (is_marked starts.now) (leads_to (behind ∷ []) instr.now) }
{
    match instr {
        Instr::IfZero(_, target)
        | Instr::IfInts(_, target)
        | Instr::IfSame(target)
        | Instr::IfOther(target)
        | Instr::IfNull(target)
        | Instr::IfNotNull(target) => is_start(starts, *target) && is_start(starts, behind),
        Instr::Goto(target) => is_start(starts, *target),
        Instr::TableSwitch { targets, other, .. } => {
            are_starts(starts, targets.as_slice()) && is_start(starts, *other)
        }
        Instr::LookupSwitch { pairs, other } => {
            lead_to_starts(starts, pairs.as_slice()) && is_start(starts, *other)
        }
        Instr::IReturn | Instr::LReturn | Instr::AReturn | Instr::Return | Instr::Throw => true,
        _ => is_start(starts, behind),
    }
}

// The offset of the instruction behind those up to this one.
fn behind_of(instrs: &[(u32, Instr)], next: usize) -> u32
    ensures { result ≡ offset_behind (drop next instrs.now) }
{
    match instrs.get(next) {
        Some(one) => one.0,
        None => OUTSIDE,
    }
}

// The offset of the first instruction that leads to no instruction.
pub(crate) fn first_stray(starts: &[bool], instrs: &[(u32, Instr)]) -> Option<u32>
    ensures { result ≡ first_stray_of (is_marked starts.now) instrs.now }
{
    for i in 0..instrs.len() {
        let behind = behind_of(instrs, i + 1);
        if !flows_well(starts, behind, &instrs[i].1) {
            return Some(instrs[i].0);
        }
    }
    None
}
