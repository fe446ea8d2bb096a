// The look-ups over one hierarchy, each with ample memory.
use std::alloc::{AllocError, Global};
use std::process::Abort;
use std::test::Fail;
use th_base::{
    ClassId, ClassInfo, FieldId, FieldInfo, Hierarchy, MethodId, MethodInfo, Same, Seq, Text,
    TryCopy, acyclic, first_cycle,
};

// A class a line: its name, superclass, superinterfaces, fields and methods. A method is abstract
// after `?`, private after `!` and static after `@`. Members are numbered from ten times the line's
// number. The built-in classes come first; J and K extend I, and A, B and C stand below Activity.
const CLASSES: &str = "java/lang/Object - - - <init>
java/lang/String 0 7 - <init>
java/lang/Throwable 0 7 - <init>
java/lang/Exception 2 - - <init>
java/lang/RuntimeException 3 - - <init>
java/lang/Error 2 - - <init>
java/lang/Cloneable 0 - - -
java/io/Serializable 0 - - -
android/os/Bundle 0 - - <init>
android/content/Context 0 - - <init>
android/app/Activity 9 - c <init>,onStart
x/I 0 - f,c ?d
x/J 0 11 - d
x/K 0 11 - ?e
x/A 10 12,13 g m,!p,@s,?q
x/B 14 13 h p,q
x/C 15 - - -";

// A class, a field and what is found. A superinterface's field comes before the superclass's.
const FIELDS: &str = "14 c 111
10 c 100
16 f 110
16 g 140
12 g -";

// A class, a method and what is found. A superclass's method comes before a superinterface's, and
// B's K leads to I before A's J. No class has another's initialiser.
const METHODS: &str = "16 m 140
14 d 120
16 d 110
14 q 143
10 <init> 100
14 <init> -";

// A class, a method and what is selected.
const SELECTED: &str = "16 m 140
16 onStart 101
16 p 150
14 p -
16 q 151
14 q -
14 s -
14 d -";

// Two types, and whether the first is a subtype of the second.
const SUBTYPES: &str = "x/C x/I yes
x/I java/lang/Object yes
x/I x/C no
x/A x/Missing no
[[Lx/C; [[Lx/I; yes
[Lx/I; [Lx/C; no
[[I [Ljava/lang/Object; yes
[I [Ljava/lang/Object; no
[I [I yes
[I [S no
[I java/lang/Cloneable yes
[[I [Ljava/io/Serializable; yes
[Lx/A; x/A no
x/A [Lx/A; no";

// Two classes, and whether the first is a subclass of the second.
const SUBCLASSES: &str = "16 14 yes
16 0 yes
16 16 yes
14 16 no
16 11 no";

// Classes, their cycle's first class and its supertype: below a cycle of two; a class that extends
// itself; the superclass's way back before the interface's; an interface's way back behind one that
// leads nowhere; and none.
const CYCLES: &str = "a 1 - - -,b 2 - - -,c 1 - - - 1 2
a - - - -,b 1 - - - 1 1
a 2 1 - -,b 0 - - -,c 0 - - - 0 2
a - 1;2 - -,b - - - -,c 0 - - - 0 2
a 1 2 - -,b 9 2 - -,c - - - - - -";

fn text(alloc: Global, word: &str) -> Result<Text, AllocError> {
    Text::from_slice(alloc, word.as_bytes())
}

fn number(word: Option<&str>) -> Option<u32> {
    word.unwrap_or("-").parse().ok()
}

fn fields_of(alloc: Global, words: &str, first: u32) -> Result<Seq<FieldInfo>, AllocError> {
    let mut fields = Seq::new(alloc);
    let mut id = first;
    for word in words.split(',') {
        if word != "-" {
            fields.push(FieldInfo {
                id: FieldId(id),
                name: text(alloc, word)?,
                descriptor: text(alloc, "I")?,
                is_static: false,
            })?;
            id = id.saturating_add(1);
        }
    }
    Ok(fields)
}

fn method_of(alloc: Global, word: &str, id: u32) -> Result<MethodInfo, AllocError> {
    let (mark, name) = match word.as_bytes() {
        [mark, name @ ..] if *mark == b'?' || *mark == b'!' || *mark == b'@' => (*mark, name),
        name => (0, name),
    };
    Ok(MethodInfo {
        id: MethodId(id),
        name: Text::from_slice(alloc, name)?,
        descriptor: text(alloc, "()V")?,
        is_static: mark == b'@',
        is_private: mark == b'!',
        is_abstract: mark == b'?',
    })
}

fn methods_of(alloc: Global, words: &str, first: u32) -> Result<Seq<MethodInfo>, AllocError> {
    let mut methods = Seq::new(alloc);
    let mut id = first;
    for word in words.split(',') {
        if word != "-" {
            methods.push(method_of(alloc, word, id)?)?;
            id = id.saturating_add(1);
        }
    }
    Ok(methods)
}

fn interfaces_of(alloc: Global, words: &str) -> Result<Seq<ClassId>, AllocError> {
    let mut interfaces = Seq::new(alloc);
    for word in words.split(',') {
        if let Some(id) = number(Some(word)) {
            interfaces.push(ClassId(id))?;
        }
    }
    Ok(interfaces)
}

fn class_of(alloc: Global, line: &str, first: u32) -> Result<ClassInfo, AllocError> {
    let mut words = line.split(' ');
    let name = text(alloc, words.next().unwrap_or(""))?;
    let super_id = number(words.next()).map(ClassId);
    let interfaces = interfaces_of(alloc, words.next().unwrap_or("-"))?;
    let fields = fields_of(alloc, words.next().unwrap_or("-"), first)?;
    let methods = methods_of(alloc, words.next().unwrap_or("-"), first)?;
    Ok(ClassInfo {
        name,
        super_id,
        interfaces,
        is_interface: false,
        is_abstract: false,
        fields,
        methods,
    })
}

fn classes_of(alloc: Global, lines: &str) -> Result<Vec<ClassInfo>, AllocError> {
    let mut classes = Vec::new(alloc);
    let mut first = 0u32;
    for line in lines.lines() {
        classes.push(class_of(alloc, line, first)?)?;
        first = first.saturating_add(10);
    }
    Ok(classes)
}

fn hierarchy_of(
    rt: &impl Abort,
    alloc: Global,
    classes: Vec<ClassInfo>,
) -> Result<Hierarchy, AllocError> {
    let answer = acyclic(alloc, classes.as_slice())?;
    assert!(rt; answer);
    assert!(rt; classes.len() < 4_294_967_296);
    Hierarchy::new(alloc, classes)
}

// What is asked of a class by a name.
#[derive(Clone, Copy)]
enum Query {
    Field,
    Method,
    Select,
}

fn answer(h: &Hierarchy, query: Query, class: u32, name: &Text, descriptor: &Text) -> Option<u32> {
    if class as usize >= h.classes().len() {
        return None;
    }
    match query {
        Query::Field => h
            .find_field(ClassId(class), name, descriptor)
            .map(|id| id.0),
        Query::Method => h
            .find_method(ClassId(class), name, descriptor)
            .map(|id| id.0),
        Query::Select => h.select(ClassId(class), name, descriptor).map(|id| id.0),
    }
}

fn is_subclass(h: &Hierarchy, a: u32, b: u32) -> bool {
    let most = h.classes().len();
    (a as usize) < most && (b as usize) < most && h.is_subclass(ClassId(a), ClassId(b))
}

fn check_rows(
    rt: &impl Abort,
    alloc: Global,
    query: Query,
    kind: &str,
    rows: &str,
) -> Result<(), AllocError> {
    let h = hierarchy_of(rt, alloc, classes_of(alloc, CLASSES)?)?;
    let descriptor = text(alloc, kind)?;
    for line in rows.lines() {
        let mut words = line.split(' ');
        let class = number(words.next()).unwrap_or(99);
        let name = text(alloc, words.next().unwrap_or(""))?;
        let wanted = number(words.next());
        assert_eq!(rt; answer(&h, query, class, &name, &descriptor), wanted);
    }
    Ok(())
}

#[test]
fn fields_are_found(rt: HostRuntime) -> Result<(), Fail> {
    check_rows(&rt, rt.alloc(), Query::Field, "I", FIELDS)?;
    Ok(())
}

#[test]
fn methods_are_found(rt: HostRuntime) -> Result<(), Fail> {
    check_rows(&rt, rt.alloc(), Query::Method, "()V", METHODS)?;
    Ok(())
}

#[test]
fn methods_are_selected(rt: HostRuntime) -> Result<(), Fail> {
    check_rows(&rt, rt.alloc(), Query::Select, "()V", SELECTED)?;
    Ok(())
}

#[test]
fn subtypes_are_known(rt: HostRuntime) -> Result<(), Fail> {
    let alloc = rt.alloc();
    let h = hierarchy_of(&rt, alloc, classes_of(alloc, CLASSES)?)?;
    for line in SUBTYPES.lines() {
        let mut words = line.split(' ');
        let a = text(alloc, words.next().unwrap_or(""))?;
        let b = text(alloc, words.next().unwrap_or(""))?;
        assert_eq!(rt; h.is_subtype(&a, &b), words.next() == Some("yes"));
    }
    Ok(())
}

#[test]
fn subclasses_are_known(rt: HostRuntime) -> Result<(), Fail> {
    let alloc = rt.alloc();
    let h = hierarchy_of(&rt, alloc, classes_of(alloc, CLASSES)?)?;
    for line in SUBCLASSES.lines() {
        let mut words = line.split(' ');
        let a = number(words.next()).unwrap_or(99);
        let b = number(words.next()).unwrap_or(99);
        assert_eq!(rt; is_subclass(&h, a, b), words.next() == Some("yes"));
    }
    Ok(())
}

// Classes each of which extends the one before; the first, with a field, extends `first`.
fn chain(alloc: Global, first: Option<u32>) -> Result<Vec<ClassInfo>, AllocError> {
    let mut classes = Vec::new(alloc);
    let mut top = class_of(alloc, "x/Top - - f -", 0)?;
    top.super_id = first.map(ClassId);
    classes.push(top)?;
    for number in 0..4095u32 {
        let mut link = class_of(alloc, "x/Link", 0)?;
        link.super_id = Some(ClassId(number));
        classes.push(link)?;
    }
    Ok(classes)
}

#[test]
fn a_long_chain_is_walked(rt: HostRuntime) -> Result<(), Fail> {
    let alloc = rt.alloc();
    let h = hierarchy_of(&rt, alloc, chain(alloc, None)?)?;
    let name = text(alloc, "f")?;
    let descriptor = text(alloc, "I")?;
    assert_eq!(rt; answer(&h, Query::Field, 4095, &name, &descriptor), Some(0));
    assert_eq!(rt; answer(&h, Query::Method, 4095, &name, &descriptor), None);
    assert!(rt; is_subclass(&h, 4095, 0));
    Ok(())
}

#[test]
fn cycles_are_found(rt: HostRuntime) -> Result<(), Fail> {
    let alloc = rt.alloc();
    let circle = acyclic(alloc, chain(alloc, Some(4095))?.as_slice())?;
    let outside = acyclic(alloc, chain(alloc, Some(4096))?.as_slice())?;
    assert!(rt; !circle && !outside);
    Ok(())
}

#[test]
fn classes_are_copied_and_compared(rt: HostRuntime) -> Result<(), Fail> {
    let alloc = rt.alloc();
    let class = class_of(alloc, "x/A 10 12,13 g m,!p", 0)?;
    assert!(rt; class.try_copy(alloc)?.same(&class));
    Ok(())
}

// The first cycle of classes that stand one behind the other in a row, whose superinterfaces are parted
// by `;`. The last one is followed by what is wanted.
fn check_cycle(rt: &impl Abort, alloc: Global, row: &str) -> Result<(), AllocError> {
    let mut classes = Vec::new(alloc);
    let mut wanted = (None, None);
    for line in row.split(',') {
        let mut words = line.split(' ');
        let mut class = class_of(alloc, words.next().unwrap_or(""), 0)?;
        class.super_id = number(words.next()).map(ClassId);
        for word in words.next().unwrap_or("").split(';') {
            if let Some(id) = number(Some(word)) {
                class.interfaces.push(ClassId(id))?;
            }
        }
        classes.push(class)?;
        wanted = (number(words.nth(2)), number(words.next()));
    }
    assert!(rt; classes.len() < 4_294_967_296);
    let found = first_cycle(alloc, classes.as_slice())?;
    let class = found.map(|cycle| cycle.class.0);
    let supertype = found.map(|cycle| cycle.supertype.0);
    assert_eq!(rt; (class, supertype), wanted);
    Ok(())
}

#[test]
fn first_cycles_are_found(rt: HostRuntime) -> Result<(), Fail> {
    let alloc = rt.alloc();
    for row in CYCLES.lines() {
        check_cycle(&rt, alloc, row)?;
    }
    let circle = chain(alloc, Some(4095))?;
    assert!(rt; circle.len() < 4_294_967_296);
    let found = first_cycle(alloc, circle.as_slice())?;
    assert_eq!(rt; found.map(|cycle| cycle.supertype.0), Some(4095));
    Ok(())
}

#[test]
fn members_are_answered(rt: HostRuntime) -> Result<(), Fail> {
    let alloc = rt.alloc();
    let h = hierarchy_of(&rt, alloc, classes_of(alloc, CLASSES)?)?.copy(alloc)?;
    assert_eq!(rt; h.find_class(b"x/A"), Some(ClassId(14)));
    assert_eq!(rt; h.find_class(b"x/Missing"), None);
    assert_eq!(rt; h.field(FieldId(140)).map(|found| found.0.0), Some(14));
    assert_eq!(rt; h.method(MethodId(143)).map(|found| found.0.0), Some(14));
    assert!(rt; h.field(FieldId(9)).is_none() && h.method(MethodId(9)).is_none());
    assert!(rt; h.classes().len() > 16);
    let declared = h.declared_method(ClassId(10), b"onStart", b"()V");
    assert_eq!(rt; declared.map(|method| method.id), Some(MethodId(101)));
    assert!(rt; h.declared_method(ClassId(14), b"onStart", b"()V").is_none());
    assert!(rt; h.is_class_subtype(ClassId(16), ClassId(11)));
    assert!(rt; !h.is_class_subtype(ClassId(11), ClassId(16)));
    Ok(())
}
