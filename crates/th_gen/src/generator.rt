// The files of the generated program.
ghost use Rattle.std.specs.Prelude.{◌≡◌, ◌≤◌, ◌<◌, true, map, IfOk};
ghost use Rattle.th_gen.specs.ClassText.{class_bytes, fits};
ghost use Rattle.th_gen.specs.Passing.{Passes};
ghost use Rattle.th_gen.specs.Generated as spec;
ghost use Rattle.th_gen.specs.Program.{IsFileOf, StandFor};

use crate::activities::class_numbered;
use crate::draft::ClassWriter;
use crate::laws::generated_classes_pass;
use crate::pool::TooLarge;
use crate::vector::vec_class;
use std::alloc::{AllocError, Global};
use th_base::{Fail, Text};

/// How many Activity classes a generated program has at most.
pub const MOST_GENERATED: u32 = 400;

// The file of a class, under the class's name.
fn file_of(alloc: Global, class: ClassWriter) -> Result<(Text, Vec<u8>), AllocError>
    requires fits { fits class ≡ true }
    requires passes { Passes class }
    ensures { IfOk result (λ file. IsFileOf file.0 file.1.items class) }
{
    let name = class.name.copy(alloc)?;
    match class.finish(alloc) {
        Ok(bytes) => Ok((name, bytes)),
        Err(Fail::NoMemory) => Err(AllocError),
        Err(Fail::Refused(TooLarge)) => unreachable!(),
    }
}

fn vec_file(alloc: Global) -> Result<(Text, Vec<u8>), AllocError>
    ensures { IfOk result (λ file. IsFileOf file.0 file.1.items spec.vec_class) }
{
    generated_classes_pass();
    let class = vec_class(alloc)?;
    file_of(alloc, class)
}

fn file_numbered(alloc: Global, number: u32) -> Result<(Text, Vec<u8>), AllocError>
    requires { number < MOST_GENERATED }
    ensures { IfOk result (λ file. IsFileOf file.0 file.1.items (spec.class_numbered number)) }
{
    generated_classes_pass();
    let class = class_numbered(alloc, number)?;
    file_of(alloc, class)
}

/// The class files of the generated program, each under its class's name: a vector, and so many
/// Activity classes.
pub fn generate(alloc: Global, count: u32) -> Result<Vec<(Text, Vec<u8>)>, AllocError>
    requires { count ≤ MOST_GENERATED }
    ensures names { IfOk result (λ files. map (λ file. file.0) files.items ≡ map (λ class. class.name) (spec.generated_classes count)) }
    ensures bytes { IfOk result (λ files. map (λ file. file.1.items) files.items ≡ map class_bytes (spec.generated_classes count)) }
    ensures stand { IfOk result (λ files. StandFor (map (λ file. file.1.items) files.items) (spec.generated_classes count)) }
{
    let mut files = Vec::new(alloc);
    let vector = vec_file(alloc)?;
    files.push(vector)?;
    for number in 0..count {
        let file = file_numbered(alloc, number)?;
        files.push(file)?;
    }
    Ok(files)
}
