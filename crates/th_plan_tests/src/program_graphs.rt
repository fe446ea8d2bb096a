// The heap graphs and alarms of small programs, by their facts.
ghost use Rattle.std.specs.Prelude.{◌<◌, ◌^◌, length, IfOk};

use crate::heap_graphs::{edges_as_text, set, sets, sites};
use std::alloc::Global;
use std::process::Abort;
use std::test::Fail;
use th_base::{
    ACTIVITY_NUMBER, ClassId, ClassInfo, FieldId, FieldInfo, Hierarchy, IdSet, Seq, SiteId, Text,
    acyclic,
};
use th_graph::{alarms, edges_pass, heap_graph};
use th_ir::{Alarm, Facts, Graph, RegProgram};

// A program a line: two objects with a field, made by two instructions, of which one is stored into
// and the other held; two made by one instruction; one that is held beside the Activity; two growing
// arrays that share their elements; and an array. The words are the classes of the sites, what the
// static fields 0 and 4 hold, what field 3 of the objects of a site holds, what the elements of one
// hold, the edges, and the alarms.
const PROGRAMS: &str = "m|i|l|l ||||2 330 - s42f330 -
b|m|i|l ||||01 3301 - s40s41f330f331 a4m
m|i|l ||||02 230 - s40s42f230 a4m
m|i|[La;|l|l 2||||3 332|432 20 s02s43f332f432e20 a0ma4m
m|i|[La; ||||2 - 20 s42e20 a4m";

// The first class of a file has a static field, two ints and a field; the second one, an Activity, has
// a static field.
fn fields(alloc: Global, class: u32) -> Result<Seq<FieldInfo>, Fail> {
    let mut fields = Seq::new(alloc);
    for number in 0..5u32 {
        let owner = if number == 4 { 12 } else { 11 };
        let descriptor = if number == 1 || number == 2 {
            "I"
        } else {
            "La;"
        };
        if owner == class {
            fields.push(FieldInfo {
                id: FieldId(number),
                name: Text::from_slice(alloc, b"f")?,
                descriptor: Text::from_slice(alloc, descriptor.as_bytes())?,
                is_static: number == 0 || number == 4,
            })?;
        }
    }
    Ok(fields)
}

fn class(alloc: Global, number: u32) -> Result<ClassInfo, Fail> {
    let mut name = Vec::new(alloc);
    name.push(b'a' + (number % 26) as u8)?;
    Ok(ClassInfo {
        name: Text::from_vec(name)?,
        super_id: if number == 12 {
            Some(ClassId(ACTIVITY_NUMBER))
        } else {
            None
        },
        interfaces: Seq::new(alloc),
        is_interface: false,
        is_abstract: false,
        fields: fields(alloc, number)?,
        methods: Seq::new(alloc),
    })
}

fn hierarchy(alloc: Global) -> Result<Hierarchy, Fail> {
    let mut classes = Vec::new(alloc);
    for number in 0..13u32 {
        classes.push(class(alloc, number)?)?;
    }
    if acyclic(alloc, classes.as_slice())? && classes.len() < 99 {
        return Ok(Hierarchy::new(alloc, classes)?);
    }
    Err("no hierarchy".into())
}

fn program(alloc: Global, classes: &str) -> Result<RegProgram, Fail>
    ensures { IfOk result (λ p. length p.sites < 2 ^ 32) }
{
    let sites = sites(alloc, classes.as_bytes())?;
    if sites.len() > 99 {
        return Err("too many sites".into());
    }
    Ok(RegProgram {
        methods: Seq::new(alloc),
        nodes: Seq::new(alloc),
        sites,
        harness: Seq::new(alloc),
        refs: IdSet::new(alloc),
        ints: Seq::new(alloc),
        strings: Seq::new(alloc),
    })
}

fn number(digit: u8) -> u32 {
    u32::from(digit).wrapping_sub(48)
}

fn cells(alloc: Global, words: &str) -> Result<Seq<(SiteId, FieldId, IdSet)>, Fail> {
    let mut cells = Seq::new(alloc);
    for word in words.split('|') {
        if let [site, field, held @ ..] = word.as_bytes() {
            let held = set(alloc, held)?;
            cells.push((SiteId(number(*site)), FieldId(number(*field)), held))?;
        }
    }
    Ok(cells)
}

fn elems(alloc: Global, words: &str) -> Result<Seq<(SiteId, IdSet)>, Fail> {
    let mut elems = Seq::new(alloc);
    for word in words.split('|') {
        if let [site, first, held @ ..] = word.as_bytes() {
            let mut held = set(alloc, held)?;
            held.insert(number(*first))?;
            elems.push((SiteId(number(*site)), held))?;
        }
    }
    Ok(elems)
}

fn alarms_as_text(alloc: Global, alarms: &[Alarm]) -> Result<String, Fail> {
    let mut text = String::new(alloc);
    for alarm in alarms {
        text.push('a')?;
        text.push((b'0' + (alarm.field.0 % 10) as u8) as char)?;
        text.push((b'a' + (alarm.class.0 % 26) as u8) as char)?;
    }
    if alarms.is_empty() {
        text.push('-')?;
    }
    Ok(text)
}

fn facts(alloc: Global, statics: &str, fields: &str, elements: &str) -> Result<Facts, Fail> {
    Ok(Facts {
        regs: Seq::new(alloc),
        statics: sets(alloc, statics.as_bytes())?,
        cells: cells(alloc, fields)?,
        elems: elems(alloc, elements)?,
        calls: Seq::new(alloc),
        reached: IdSet::new(alloc),
    })
}

// The graph of facts, which must have these edges.
fn checked_graph(
    rt: &(impl Abort + Alloc<A = Global>),
    hierarchy: &Hierarchy,
    facts: &Facts,
    edges: &str,
) -> Result<Graph, Fail>
    ensures { IfOk result (λ g. length g.edges < 2 ^ 32) }
{
    let alloc = rt.alloc();
    let graph = heap_graph(alloc, hierarchy, facts)?;
    if graph.edges.len() > 99 {
        return Err("too many edges".into());
    }
    assert_eq!(rt; edges_as_text(alloc, &graph)?.as_str(), edges);
    Ok(graph)
}

// Whether facts have more edges than this graph, and than one fewer.
fn check_count(
    rt: &(impl Abort + Alloc<A = Global>),
    hierarchy: &Hierarchy,
    facts: &Facts,
    graph: &Graph,
) -> Result<(), Fail> {
    let alloc = rt.alloc();
    let count = graph.edges.len().min(99) as u32;
    assert!(rt; !edges_pass(alloc, hierarchy, facts, count)?);
    assert!(rt; edges_pass(alloc, hierarchy, facts, count.saturating_sub(1))?);
    Ok(())
}

// The alarms of a program by its graph, which must be these.
fn check_alarms(
    rt: &(impl Abort + Alloc<A = Global>),
    program: &RegProgram,
    hierarchy: &Hierarchy,
    graph: &Graph,
    wanted: &str,
) -> Result<(), Fail>
    requires sites { length program.now.sites < 2 ^ 32 }
    requires edges { length graph.now.edges < 2 ^ 32 }
{
    let alloc = rt.alloc();
    let found = alarms(alloc, program, hierarchy, graph)?;
    assert_eq!(rt; alarms_as_text(alloc, found.as_slice())?.as_str(), wanted);
    Ok(())
}

#[test]
fn programs_have_their_graphs(rt: HostRuntime) -> Result<(), Fail> {
    let alloc = rt.alloc();
    let hierarchy = hierarchy(alloc)?;
    for line in PROGRAMS.lines() {
        let mut words = line.split(' ');
        let program = program(alloc, words.next().unwrap_or(""))?;
        let statics = words.next().unwrap_or("");
        let fields = words.next().unwrap_or("");
        let facts = facts(alloc, statics, fields, words.next().unwrap_or(""))?;
        let graph = checked_graph(&rt, &hierarchy, &facts, words.next().unwrap_or(""))?;
        check_count(&rt, &hierarchy, &facts, &graph)?;
        let wanted = words.next().unwrap_or("");
        check_alarms(&rt, &program, &hierarchy, &graph, wanted)?;
    }
    Ok(())
}
