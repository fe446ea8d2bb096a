// What the entries of the constant pool stand for.
use th_base::Text;
use th_syntax::MemberRef;

/// An entry of the constant pool, with what it stands for in place of indices (Java specification
/// 4.4).
#[derive(Drop, PartialEq, Eq, Hash)]
pub enum PoolItem {
    Utf8(Text),
    Integer(i32),
    LongInteger(i64),
    ClassName(Text),
    StringText(Text),
    NameAndType { name: Text, descriptor: Text },
    FieldRef(MemberRef),
    MethodRef(MemberRef),
    InterfaceMethodRef(MemberRef),
}
