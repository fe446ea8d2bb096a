// Files read into class files.
ghost use Rattle.std.specs.Prelude.{All, IfOk};
ghost use Rattle.std.specs.List.{AllZip};
ghost use Rattle.th_accept.specs.Accepted.{StandFor, IsFileRefused};
ghost use Rattle.th_accept.specs.Answers.{AnswersFile, IfRefused, IsShort};

use crate::answers::gather;
use rayon::prelude::*;
use std::alloc::{AllocError, Global};
use std::thread::Threads;
use th_base::{Fail, Text};
use th_reader::read_class;
use th_syntax::{ClassFile, Refusal};

// What each file stands for, in order.
fn read_each<T: Threads + Sync>(
    rt: &T,
    alloc: Global,
    files: &[(Text, Text)],
) -> Result<Vec<Result<ClassFile, Fail<Refusal>>>, AllocError>
    requires { All IsShort files.now }
    ensures { IfOk result (λ answers. AllZip AnswersFile files.now answers.items) }
{
    files
        .par_iter()
        .map(
            |file: &(Text, Text)| -> Result<ClassFile, Fail<Refusal>>
                requires { IsShort file.now }
                ensures { AnswersFile file.now result }
            { read_class(alloc, &file.0, file.1.as_bytes()) },
        )
        .collect(rt, alloc)
}

// The class files that files stand for, or the refusal of the first that stands for none.
pub(crate) fn read_all<T: Threads + Sync>(
    rt: &T,
    alloc: Global,
    files: &[(Text, Text)],
) -> Result<Vec<ClassFile>, Fail<Refusal>>
    requires { All IsShort files.now }
    ensures stand { IfOk result (λ classes. StandFor files.now classes.items) }
    ensures refused { IfRefused result (IsFileRefused files.now) }
{
    let answers = read_each(rt, alloc, files)?;
    gather(alloc, answers)
}
