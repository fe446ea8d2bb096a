// A program: class files, and the hierarchy of their classes.
ghost use Rattle.std.specs.Prelude.{◌≡◌};
ghost use Rattle.th_syntax.specs.Program.{hierarchy_of};

use crate::ClassFile;
use std::marker::Model;
use th_base::{Hierarchy, Seq};

/// Class files with the hierarchy of their classes, before which the built-in ones stand. Contracts
/// see the list of class files.
#[derive(Debug, Drop)]
pub struct Program {
    files: Seq<ClassFile>,
    hierarchy: Hierarchy,
}

impl Model for Program {
    ghost use Rattle.std.specs.Prelude.{◌≡◌, List};
    ghost use Rattle.th_syntax.specs.declared.class_file.ClassFile.{ClassFile};
    ghost use Rattle.th_syntax.specs.Program.{hierarchy_of};

    ghost Value = { List ClassFile };

    ghost view = { λ p. p.files };

    ghost invariant = { λ p. p.hierarchy ≡ hierarchy_of p.files };
}

impl Program {
    /// A program of these files, in order, whose hierarchy was made. Takes no memory.
    pub fn new(files: Seq<ClassFile>, hierarchy: Hierarchy) -> Program
        requires { hierarchy ≡ hierarchy_of files }
        ensures { result ≡ files }
    {
        Program { files, hierarchy }
    }

    /// The class files, in order.
    pub fn files(&self) -> &[ClassFile]
        ensures { result.now ≡ self.now }
    {
        self.files.as_slice()
    }

    /// The hierarchy of the built-in classes and the files'.
    pub fn hierarchy(&self) -> &Hierarchy
        ensures { result.now ≡ hierarchy_of self.now }
    {
        &self.hierarchy
    }
}
