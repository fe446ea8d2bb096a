// The classes of a program, found by their names.
ghost use Rattle.std.specs.Prelude.{◌≡◌, ◌<◌, ◌^◌, length, slice_get, IfOk};
ghost use Rattle.std.specs.Option.{option_copied};
ghost use Rattle.th_syntax.specs.LinkChecks.{class_of_name, name_of};
ghost use Rattle.th_syntax.specs.Program.{all_classes, number_named, id_named};

use crate::named::{find_number, names_of};
use indexmap::IndexMap;
use std::alloc::{AllocError, Global};
use std::marker::Model;
use th_base::{ClassId, Text};
use th_syntax::ClassFile;

// The classes of a program by their names. Contracts see the class files, before which the built-in
// classes stand.
#[derive(Drop)]
pub(crate) struct Classes<'a> {
    all: &'a [ClassFile],
    files: &'a [ClassFile],
    numbers: IndexMap<&'a Text, u32>,
}

impl<'a> Model for Classes<'a> {
    ghost use Rattle.std.specs.Prelude.{◌≡◌, ◌<◌, ◌^◌, ℕ, List, length};
    ghost use Rattle.std.specs.Str.{bytes_eq};
    ghost use Rattle.indexmap.specs.IndexMap.{get_by};
    ghost use Rattle.th_syntax.specs.declared.class_file.ClassFile.{ClassFile};
    ghost use Rattle.th_syntax.specs.Program.{all_classes, number_named};

    ghost Value = { List ClassFile };

    ghost view = { λ c. c.files.now };

    ghost invariant = { λ c. (c.all.now ≡ all_classes c.files.now) × ((name : List ℕ) → get_by (λ k. bytes_eq name k.now) c.numbers ≡ number_named c.files.now name) };
}

impl<'a> Classes<'a> {
    // All the classes of a program, and those of the files.
    pub(crate) fn new(
        alloc: Global,
        all: &'a [ClassFile],
        files: &'a [ClassFile],
    ) -> Result<Classes<'a>, AllocError>
        requires all { all.now ≡ all_classes files.now }
        requires few { length (all_classes files.now) < 2 ^ 32 }
        ensures { IfOk result (λ classes. classes ≡ files.now) }
    {
        let numbers = names_of(alloc, all)?;
        Ok(Classes {
            all,
            files,
            numbers,
        })
    }

    // The classes of the files.
    pub(crate) fn files(&self) -> &[ClassFile]
        ensures { result.now ≡ self.now }
    {
        self.files
    }

    // All the classes.
    pub(crate) fn all(&self) -> &[ClassFile]
        ensures { result.now ≡ all_classes self.now }
    {
        self.all
    }

    // The number of the class of a name.
    pub(crate) fn number(&self, name: &Text) -> Option<u32>
        ensures { result ≡ number_named self.now name.now }
    {
        find_number(&self.numbers, name)
    }

    // The same, as the hierarchy has it.
    pub(crate) fn id(&self, name: &Text) -> Option<ClassId>
        ensures { result ≡ id_named self.now name.now }
    {
        match self.number(name) {
            Some(number) => Some(ClassId(number)),
            None => None,
        }
    }

    // The class of a name.
    pub(crate) fn class(&self, name: &Text) -> Option<&ClassFile>
        ensures { option_copied result ≡ class_of_name self.now name.now }
    {
        match self.number(name) {
            Some(number) => self.at(number),
            None => None,
        }
    }

    // The class of a number.
    fn at(&self, number: u32) -> Option<&ClassFile>
        ensures { option_copied result ≡ slice_get (all_classes self.now) number }
    {
        self.all.get(number as usize)
    }

    // The name of the class of a number.
    pub(crate) fn name(&self, alloc: Global, class: ClassId) -> Result<Text, AllocError>
        ensures { IfOk result (λ name. name ≡ name_of self.now class.0) }
    {
        match self.at(class.0) {
            Some(found) => found.name.copy(alloc),
            None => Text::new(alloc),
        }
    }
}
