ghost use Rattle.std.specs.Prelude.{◌<◌, ◌^◌, ◌≡◌, length, IfOk};

use std::alloc::Global;
use std::test::Fail;
use th_base::{
    ACTIVITY_NUMBER, ClassId, ClassInfo, EdgeId, FieldId, FieldInfo, Hierarchy, IdSet, MethodId,
    NodeId, Reg, Seq, SiteId, Text, acyclic,
};
use th_graph::{StoreIndex, alarms, alarms_pass, edges_pass, heap_graph, producers};
use th_ir::{Edge, Facts, Graph, Node, Place, Plan, Producer, RegProgram, Site, Stmt};

// A class of twelve: the eleven built-in ones stand first, and extend nothing here but the Activity.
fn class(alloc: Global, number: u32) -> Result<ClassInfo, Fail> {
    let mut name = Vec::new(alloc);
    name.push(b'a' + (number % 26) as u8)?;
    let mut class = ClassInfo {
        name: Text::from_vec(name)?,
        super_id: if number == 11 {
            Some(ClassId(ACTIVITY_NUMBER))
        } else {
            None
        },
        interfaces: Seq::new(alloc),
        is_interface: false,
        is_abstract: false,
        fields: Seq::new(alloc),
        methods: Seq::new(alloc),
    };
    if number == 11 {
        class.fields = fields(alloc)?;
    }
    Ok(class)
}

// Of the last class: a static field and a field of references, and a static field of ints.
fn fields(alloc: Global) -> Result<Seq<FieldInfo>, Fail> {
    let mut fields = Seq::new(alloc);
    for number in 0..3u32 {
        let descriptor = if number == 2 {
            b"I".as_slice()
        } else {
            b"La;".as_slice()
        };
        fields.push(FieldInfo {
            id: FieldId(number),
            name: Text::from_slice(alloc, b"f")?,
            descriptor: Text::from_slice(alloc, descriptor)?,
            is_static: number != 1,
        })?;
    }
    Ok(fields)
}

fn hierarchy(alloc: Global) -> Result<Hierarchy, Fail> {
    let mut classes = Vec::new(alloc);
    for number in 0..12u32 {
        classes.push(class(alloc, number)?)?;
    }
    if acyclic(alloc, classes.as_slice())? && classes.len() < 99 {
        return Ok(Hierarchy::new(alloc, classes)?);
    }
    Err("no hierarchy".into())
}

// Sites 0 and 1 make objects of the last class and of the first, sites 2 and 3 arrays of the two.
const SITES: &[u8] = b"l|a|[Ll;|[La;";

// The sites whose classes a text has, with bars between them.
pub(crate) fn sites(alloc: Global, classes: &[u8]) -> Result<Seq<Site>, Fail> {
    let mut sites = Seq::new(alloc);
    for text in classes.split(|b| *b == b'|') {
        sites.push(Site {
            class: Text::from_slice(alloc, text)?,
            place: Place::Event,
        })?;
    }
    Ok(sites)
}

fn stmt(place: u32) -> Stmt {
    match place {
        0 => Stmt::PutStatic(FieldId(0), Reg(3)),
        1 => Stmt::PutField(Reg(0), FieldId(1), Reg(1)),
        2 => Stmt::PutElem(Reg(2), Reg(0)),
        3 => Stmt::PutElem(Reg(2), Reg(3)),
        4 => Stmt::PutElem(Reg(2), Reg(0)),
        _ => Stmt::PutStatic(FieldId(2), Reg(1)),
    }
}

// The stores of a method that may run; that at node 4 is of another, which may not.
fn nodes(alloc: Global) -> Result<Seq<Node>, Fail> {
    let mut nodes = Seq::new(alloc);
    for place in 0..6u32 {
        nodes.push(Node {
            method: MethodId(if place == 4 { 1 } else { 0 }),
            offset: 0,
            stmt: stmt(place),
            next: Seq::new(alloc),
            loop_head: false,
        })?;
    }
    Ok(nodes)
}

fn program(alloc: Global) -> Result<RegProgram, Fail>
    ensures { IfOk result (λ p. (length p.nodes ≡ 6) × (length p.sites ≡ 4) × (length p.strings ≡ 1)) }
{
    let nodes = nodes(alloc)?;
    let sites = sites(alloc, SITES)?;
    let mut strings = Seq::new(alloc);
    strings.push((FieldId(0), SiteId(3)))?;
    if nodes.len() != 6 || sites.len() != 4 || strings.len() != 1 {
        return Err("another program".into());
    }
    Ok(RegProgram {
        methods: Seq::new(alloc),
        nodes,
        sites,
        harness: Seq::new(alloc),
        refs: IdSet::new(alloc),
        ints: Seq::new(alloc),
        strings,
    })
}

// The set of these digits.
pub(crate) fn set(alloc: Global, digits: &[u8]) -> Result<IdSet, Fail> {
    let mut set = IdSet::new(alloc);
    for digit in digits {
        set.insert(u32::from(*digit).wrapping_sub(48))?;
    }
    Ok(set)
}

// The sets of a text, with bars between them.
pub(crate) fn sets(alloc: Global, text: &[u8]) -> Result<Seq<IdSet>, Fail> {
    let mut sets = Seq::new(alloc);
    for digits in text.split(|b| *b == b'|') {
        sets.push(set(alloc, digits)?)?;
    }
    Ok(sets)
}

// Static field 0 holds objects of site 1 and arrays of sites 2 and 3, field 1 of the objects of site 0
// objects of site 1, and the arrays of site 2 objects of site 0. Static field 2 is one of ints.
fn facts(alloc: Global) -> Result<Facts, Fail> {
    let mut cells = Seq::new(alloc);
    cells.push((SiteId(0), FieldId(1), set(alloc, b"1")?))?;
    let mut elems = Seq::new(alloc);
    elems.push((SiteId(2), set(alloc, b"0")?))?;
    Ok(Facts {
        regs: sets(alloc, b"0|1|2|23")?,
        statics: sets(alloc, b"123||")?,
        cells,
        elems,
        calls: Seq::new(alloc),
        reached: set(alloc, b"0")?,
    })
}

fn digit(number: u32) -> char {
    if number < 10 {
        (48 + number as u8) as char
    } else {
        'x'
    }
}

fn add(text: &mut String, kind: char, numbers: &[u32]) -> Result<(), Fail> {
    text.push(kind)?;
    for number in numbers {
        text.push(digit(*number))?;
    }
    Ok(())
}

// The edges, a letter and the numbers of each.
pub(crate) fn edges_as_text(alloc: Global, graph: &Graph) -> Result<String, Fail> {
    let mut text = String::new(alloc);
    for edge in graph.edges.as_slice() {
        match *edge {
            Edge::Static(f, x) => add(&mut text, 's', &[f.0, x.0])?,
            Edge::Field(x, f, y) => add(&mut text, 'f', &[x.0, f.0, y.0])?,
            Edge::Element(x, y) => add(&mut text, 'e', &[x.0, y.0])?,
        }
    }
    Ok(text)
}

fn producers_as_text(alloc: Global, producers: &[Producer]) -> Result<String, Fail> {
    let mut text = String::new(alloc);
    for producer in producers {
        match *producer {
            Producer::Node(n) => add(&mut text, 'n', &[n.0])?,
            Producer::Constant(f) => add(&mut text, 'c', &[f.0])?,
        }
    }
    Ok(text)
}

#[test]
fn edges_are_in_order(rt: HostRuntime) -> Result<(), Fail> {
    let alloc = rt.alloc();
    let hierarchy = hierarchy(alloc)?;
    let facts = facts(alloc)?;
    let graph = heap_graph(alloc, &hierarchy, &facts)?;
    if edges_as_text(alloc, &graph)?.as_str() != "s01s02s03f011e20" {
        return Err("other edges".into());
    }
    if edges_pass(alloc, &hierarchy, &facts, 5)? || !edges_pass(alloc, &hierarchy, &facts, 4)? {
        return Err("another count of edges".into());
    }
    Ok(())
}

#[test]
fn alarm_is_by_an_element(rt: HostRuntime) -> Result<(), Fail> {
    let alloc = rt.alloc();
    let hierarchy = hierarchy(alloc)?;
    let program = program(alloc)?;
    let graph = heap_graph(alloc, &hierarchy, &facts(alloc)?)?;
    if graph.edges.len() > 99 {
        return Err("too many edges".into());
    }
    let found = alarms(alloc, &program, &hierarchy, &graph)?;
    match found.as_slice() {
        [alarm] if alarm.field == FieldId(0) && alarm.class == ClassId(11) => {}
        _ => return Err("other alarms".into()),
    }
    if alarms_pass(alloc, &program, &hierarchy, &graph, 1)?
        || !alarms_pass(alloc, &program, &hierarchy, &graph, 0)?
    {
        return Err("another count of alarms".into());
    }
    Ok(())
}

fn plan(alloc: Global) -> Result<Plan, Fail>
    ensures { IfOk result (λ p. (length p.program.nodes < 2 ^ 32) × (length p.program.strings < 2 ^ 32) × (length p.graph.edges ≡ 5)) }
{
    let program = program(alloc)?;
    let hierarchy = hierarchy(alloc)?;
    let facts = facts(alloc)?;
    let graph = heap_graph(alloc, &hierarchy, &facts)?;
    if graph.edges.len() != 5 {
        return Err("other edges".into());
    }
    Ok(Plan {
        program,
        hierarchy,
        facts,
        mods: Seq::new(alloc),
        graph,
        alarms: Seq::new(alloc),
        budget: 0,
    })
}

// The edge's number, and its producers.
#[test]
fn producers_are_stores_that_may_run(rt: HostRuntime) -> Result<(), Fail> {
    let alloc = rt.alloc();
    let plan = plan(alloc)?;
    let index = StoreIndex::new(alloc, &plan)?;
    let texts = ["", "n0", "c0n0", "n1", "n2"];
    for number in 0..5u32 {
        let edge = plan.graph.edges.as_slice()[number as usize];
        let by_index = index.producers_of(alloc, &plan, edge)?;
        let plainly = producers(alloc, &plan, EdgeId(number))?;
        if producers_as_text(alloc, by_index.as_slice())?.as_str() != texts[number as usize]
            || producers_as_text(alloc, plainly.as_slice())?.as_str() != texts[number as usize]
        {
            return Err("other producers".into());
        }
    }
    Ok(())
}
