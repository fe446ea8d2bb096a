// The built-in classes as class files, in order. They are this project's own.
ghost use Rattle.std.specs.Prelude.{◌≡◌, [], ◌∷◌, ◌++◌, map, take, drop, IfOk, OnOk, if◌then◌else◌};
ghost use Rattle.std.specs.Str.{bytes_eq};
ghost use Rattle.th_base.specs.BuiltIn.{is_built_in};
ghost use Rattle.th_base.specs.Handlers.{handlers};
ghost use Rattle.th_syntax.specs.Program as program;

use std::alloc::{AllocError, Global};
use th_base::{
    ACTIVITY, BUNDLE, CLONEABLE, CONSTRUCTOR, HANDLERS, OBJECT, SERIALIZABLE, STRING, Seq,
    TAKES_BUNDLE, TAKES_NOTHING, Text,
};
use th_syntax::{ClassFile, Code, Instr, Member};

const THROWABLE: &str = "java/lang/Throwable";

const EXCEPTION: &str = "java/lang/Exception";

const RUNTIME_EXCEPTION: &str = "java/lang/RuntimeException";

const ERROR: &str = "java/lang/Error";

const CONTEXT: &str = "android/content/Context";

// The access flags of the built-in classes (Java specification, table 4.1-A).
const PUBLIC: u16 = 1;

const PUBLIC_ABSTRACT: u16 = 1025;

const PUBLIC_INTERFACE: u16 = 1537;

// Whether a class of this name is built in.
pub(crate) fn is_built_in_name(name: &[u8]) -> bool
    ensures { result ≡ is_built_in name.now }
{
    name == OBJECT.as_bytes()
        || name == STRING.as_bytes()
        || name == THROWABLE.as_bytes()
        || name == EXCEPTION.as_bytes()
        || name == RUNTIME_EXCEPTION.as_bytes()
        || name == ERROR.as_bytes()
        || name == CLONEABLE.as_bytes()
        || name == SERIALIZABLE.as_bytes()
        || name == BUNDLE.as_bytes()
        || name == CONTEXT.as_bytes()
        || name == ACTIVITY.as_bytes()
}

// The built-in classes, then these.
pub(crate) fn with_built_in(
    alloc: Global,
    files: Vec<ClassFile>,
) -> Result<Vec<ClassFile>, AllocError>
    ensures { IfOk result (λ classes. classes.items ≡ program.all_classes files.items) }
{
    let mut classes = root_classes(alloc)?;
    let exceptions = exception_classes(alloc)?;
    add_all(&mut classes, exceptions)?;
    let interfaces = array_interfaces(alloc)?;
    add_all(&mut classes, interfaces)?;
    let platform = platform_classes(alloc)?;
    add_all(&mut classes, platform)?;
    add_all(&mut classes, files)?;
    Ok(classes)
}

fn add_all(classes: &mut Vec<ClassFile>, mut more: Vec<ClassFile>) -> Result<(), AllocError>
    ensures { OnOk result (classes.new.items ≡ classes.old.items ++ more.items) }
{
    classes.append(&mut more)
}

fn root_classes(alloc: Global) -> Result<Vec<ClassFile>, AllocError>
    ensures { IfOk result (λ classes. classes.items ≡ take 3 program.built_in_classes) }
{
    let object = object_class(alloc)?;
    let string = class_of(alloc, STRING, OBJECT, serializable(alloc)?)?;
    let throwable = class_of(alloc, THROWABLE, OBJECT, serializable(alloc)?)?;
    Ok(Vec::from_array(alloc, [object, string, throwable])?)
}

fn exception_classes(alloc: Global) -> Result<Vec<ClassFile>, AllocError>
    ensures { IfOk result (λ classes. classes.items ≡ take 3 (drop 3 program.built_in_classes)) }
{
    let exception = class_of(alloc, EXCEPTION, THROWABLE, Seq::new(alloc))?;
    let runtime = class_of(alloc, RUNTIME_EXCEPTION, EXCEPTION, Seq::new(alloc))?;
    let error = class_of(alloc, ERROR, THROWABLE, Seq::new(alloc))?;
    Ok(Vec::from_array(alloc, [exception, runtime, error])?)
}

fn array_interfaces(alloc: Global) -> Result<Vec<ClassFile>, AllocError>
    ensures { IfOk result (λ classes. classes.items ≡ take 2 (drop 6 program.built_in_classes)) }
{
    let cloneable = interface_of(alloc, CLONEABLE)?;
    let serializable = interface_of(alloc, SERIALIZABLE)?;
    Ok(Vec::from_array(alloc, [cloneable, serializable])?)
}

fn platform_classes(alloc: Global) -> Result<Vec<ClassFile>, AllocError>
    ensures { IfOk result (λ classes. classes.items ≡ drop 8 program.built_in_classes) }
{
    let bundle = class_of(alloc, BUNDLE, OBJECT, Seq::new(alloc))?;
    let context = context_class(alloc)?;
    let activity = activity_class(alloc)?;
    Ok(Vec::from_array(alloc, [bundle, context, activity])?)
}

fn object_class(alloc: Global) -> Result<ClassFile, AllocError>
    ensures { IfOk result (λ class. class ≡ program.built_in_class OBJECT.now None []) }
{
    let methods = constructor(alloc)?;
    plain_class(alloc, PUBLIC, OBJECT, None, Seq::new(alloc), methods)
}

fn context_class(alloc: Global) -> Result<ClassFile, AllocError>
    ensures { IfOk result (λ class. class ≡ program.plain_class 1025 CONTEXT.now (Some OBJECT.now) [] (program.empty_constructor ∷ [])) }
{
    let methods = constructor(alloc)?;
    let above = text(alloc, OBJECT)?;
    plain_class(
        alloc,
        PUBLIC_ABSTRACT,
        CONTEXT,
        Some(above),
        Seq::new(alloc),
        methods,
    )
}

fn activity_class(alloc: Global) -> Result<ClassFile, AllocError>
    ensures { IfOk result (λ class. class ≡ program.plain_class 1 ACTIVITY.now (Some CONTEXT.now) [] (program.empty_constructor ∷ map program.empty_handler handlers)) }
{
    let mut methods = constructor(alloc)?;
    add_handlers(alloc, &mut methods)?;
    let above = text(alloc, CONTEXT)?;
    plain_class(
        alloc,
        PUBLIC,
        ACTIVITY,
        Some(above),
        Seq::new(alloc),
        methods,
    )
}

// A public class with a superclass and the constructor.
fn class_of(
    alloc: Global,
    name: &str,
    super_name: &str,
    interfaces: Seq<Text>,
) -> Result<ClassFile, AllocError>
    ensures { IfOk result (λ class. class ≡ program.built_in_class name.now (Some super_name.now) interfaces) }
{
    let methods = constructor(alloc)?;
    let above = text(alloc, super_name)?;
    plain_class(alloc, PUBLIC, name, Some(above), interfaces, methods)
}

// A public interface.
fn interface_of(alloc: Global, name: &str) -> Result<ClassFile, AllocError>
    ensures { IfOk result (λ class. class ≡ program.built_in_interface name.now) }
{
    let above = text(alloc, OBJECT)?;
    let access = PUBLIC_INTERFACE;
    plain_class(
        alloc,
        access,
        name,
        Some(above),
        Seq::new(alloc),
        Seq::new(alloc),
    )
}

// A class without fields.
fn plain_class(
    alloc: Global,
    access: u16,
    name: &str,
    super_name: Option<Text>,
    interfaces: Seq<Text>,
    methods: Seq<Member>,
) -> Result<ClassFile, AllocError>
    ensures { IfOk result (λ class. class ≡ program.plain_class access name.now super_name interfaces methods) }
{
    Ok(ClassFile {
        major: 52,
        access,
        name: text(alloc, name)?,
        super_name,
        interfaces,
        fields: Seq::new(alloc),
        methods,
    })
}

fn serializable(alloc: Global) -> Result<Seq<Text>, AllocError>
    ensures { IfOk result (λ names. names ≡ SERIALIZABLE.now ∷ []) }
{
    let mut names = Seq::new(alloc);
    names.push(text(alloc, SERIALIZABLE)?)?;
    Ok(names)
}

// The constructor without parameters alone.
fn constructor(alloc: Global) -> Result<Seq<Member>, AllocError>
    ensures { IfOk result (λ methods. methods ≡ program.empty_constructor ∷ []) }
{
    let mut methods = Seq::new(alloc);
    methods.push(empty_method(alloc, CONSTRUCTOR, TAKES_NOTHING, 1)?)?;
    Ok(methods)
}

// Adds the handlers, which do nothing.
fn add_handlers(alloc: Global, methods: &mut Seq<Member>) -> Result<(), AllocError>
    ensures { OnOk result (methods.new ≡ methods.old ++ map program.empty_handler handlers) }
{
    for (name, descriptor) in HANDLERS.iter() {
        let locals = handler_locals(descriptor);
        let method = empty_method(alloc, name, descriptor, locals)?;
        methods.push(method)?;
    }
    Ok(())
}

// How many locals a handler has: the receiver, and the Bundle where it takes one.
fn handler_locals(descriptor: &str) -> u16
    ensures { result ≡ (if bytes_eq descriptor.now TAKES_BUNDLE.now then 2 else 1) }
{
    if descriptor.as_bytes() == TAKES_BUNDLE.as_bytes() {
        2
    } else {
        1
    }
}

// A public method that returns at once.
fn empty_method(
    alloc: Global,
    name: &str,
    descriptor: &str,
    locals: u16,
) -> Result<Member, AllocError>
    ensures { IfOk result (λ method. method ≡ program.empty_method name.now descriptor.now locals) }
{
    let mut instrs = Seq::new(alloc);
    instrs.push((0, Instr::Return))?;
    Ok(Member {
        access: PUBLIC,
        name: text(alloc, name)?,
        descriptor: text(alloc, descriptor)?,
        constant: None,
        code: Some(Code {
            max_stack: 0,
            max_locals: locals,
            instrs,
            handlers: 0,
        }),
    })
}

fn text(alloc: Global, text: &str) -> Result<Text, AllocError>
    ensures { IfOk result (λ made. made ≡ text.now) }
{
    Text::from_slice(alloc, text.as_bytes())
}
