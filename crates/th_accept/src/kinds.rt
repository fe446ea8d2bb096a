// The kinds of all methods.
ghost use Rattle.std.specs.Prelude.{All, IfOk, IsOk};
ghost use Rattle.std.specs.List.{AllZip, AllByRecursion};
ghost use Rattle.th_accept.specs.Accepted.{HasAllKinds, AreKindsRefused};
ghost use Rattle.th_accept.specs.Answers.{AnswersClass, FlowsThroughout, IfRefused};

use crate::answers::gather;
use rayon::prelude::*;
use std::alloc::{AllocError, Global};
use std::thread::Threads;
use th_base::Fail;
use th_kinds::infer;
use th_syntax::{ClassFile, Refusal};

// Infers the kinds of a class's methods, in order; refused is the first that has a conflict.
fn check_class(alloc: Global, class: &ClassFile) -> Result<(), Fail<Refusal>>
    requires { FlowsThroughout class.now }
    ensures { AnswersClass class.now result }
{
    for method in class.methods.as_slice() {
        match infer(alloc, &class.name, method) {
            Ok(_) => {}
            Err(fail) => return Err(fail),
        }
    }
    Ok(())
}

// What comes of each class's kinds, in order.
fn check_each<T: Threads + Sync>(
    rt: &T,
    alloc: Global,
    classes: &[ClassFile],
) -> Result<Vec<Result<(), Fail<Refusal>>>, AllocError>
    requires { All FlowsThroughout classes.now }
    ensures { IfOk result (λ answers. AllZip AnswersClass classes.now answers.items) }
{
    classes
        .par_iter()
        .map(
            |class: &ClassFile| -> Result<(), Fail<Refusal>>
                requires { FlowsThroughout class.now }
                ensures { AnswersClass class.now result }
            { check_class(alloc, class) },
        )
        .collect(rt, alloc)
}

// Infers the kinds of all methods; refused is the first, in order, that has a conflict.
pub(crate) fn check_kinds<T: Threads + Sync>(
    rt: &T,
    alloc: Global,
    classes: &[ClassFile],
) -> Result<(), Fail<Refusal>>
    requires { All FlowsThroughout classes.now }
    ensures kinds { IfOk result (λ _. AllByRecursion HasAllKinds classes.now) }
    ensures refused { IfRefused result (AreKindsRefused classes.now) }
{
    let answers = check_each(rt, alloc, classes)?;
    match gather(alloc, answers) {
        Ok(_) => Ok(()),
        Err(fail) => Err(fail),
    }
}
