// The condition of linking.
ghost use Rattle.std.specs.Prelude.{◌↔◌, IsTrue};
ghost use Rattle.std.specs.List.{All};
ghost use Rattle.th_linker.specs.Linkable.{CanLink, HasFewMembers};

use th_syntax::ClassFile;

/// How many class files are linked at once (this project's own).
pub const MOST_FILES: usize = 4096;

/// How many fields, and how many methods, a class file may have: its counts have 16 bits
/// (Java specification 4.1).
pub const MOST_MEMBERS: usize = 65_535;

/// Whether `link` may be asked: the class files are at most `MOST_FILES`, and none has more fields or
/// methods than its file's counts can say. Class files that were read have no more.
pub fn can_link(files: &[ClassFile]) -> bool
    ensures { IsTrue result ↔ CanLink files.now }
{
    if files.len() > MOST_FILES {
        return false;
    }
    have_few_members(files)
}

fn have_few_members(files: &[ClassFile]) -> bool
    ensures { IsTrue result ↔ All HasFewMembers files.now }
{
    for class in files {
        if !has_few_members(class) {
            return false;
        }
    }
    true
}

fn has_few_members(class: &ClassFile) -> bool
    ensures { IsTrue result ↔ HasFewMembers class.now }
{
    class.fields.len() <= MOST_MEMBERS && class.methods.len() <= MOST_MEMBERS
}
