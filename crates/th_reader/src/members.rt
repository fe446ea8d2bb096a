// The fields and methods of a class as values, with the fourth pass.
ghost use Rattle.std.specs.Prelude.{◌≡◌, [], IfOk, map, Some, None};
ghost use Rattle.std.specs.List.{flat_map};
ghost use Rattle.th_syntax.specs.declared.tag.TheConstants as tags;
ghost use Rattle.th_syntax.specs.Checks as checks;
ghost use Rattle.th_syntax.specs.ClassGrammar as grammar;
ghost use Rattle.th_syntax.specs.PoolChecks.{utf8_of};
ghost use Rattle.th_reader.specs.RawView.{class_view, index_view, member_view};
ghost use Rattle.th_reader.specs.Passes.{Makes};

use crate::codes::method_code;
use crate::constants::field_constant;
use crate::layout::{Index, RawClass, RawMember};
use std::alloc::{AllocError, Global};
use th_base::{Fail, Seq, Text};
use th_pool::Pool;
use th_syntax::{Code, Constant, Flaw, Member};

// The text of a Utf8 entry, which shares the pool's bytes.
fn text_at(alloc: Global, pool: &Pool, index: Index) -> Result<Text, AllocError>
    requires { checks.index_flaws pool.now tags.UTF8 (index_view index) ≡ [] }
    ensures { IfOk result (λ text. utf8_of pool.now index.value ≡ Some text) }
{
    pool.text(index.value).unwrap().text().copy(alloc)
}

// A member under the name and the descriptor that its indices lead to.
fn named(
    alloc: Global,
    pool: &Pool,
    raw: &RawMember,
    constant: Option<Constant>,
    code: Option<Code>,
) -> Result<Member, AllocError>
    requires { checks.member_index_flaws pool.now (member_view raw.now) ≡ [] }
    ensures { IfOk result (λ m. grammar.named pool.now (member_view raw.now) constant code ≡ Some m) }
{
    let name = text_at(alloc, pool, raw.name)?;
    let descriptor = text_at(alloc, pool, raw.descriptor)?;
    Ok(Member {
        access: raw.access.value,
        name,
        descriptor,
        constant,
        code,
    })
}

fn read_field(alloc: Global, pool: &Pool, raw: &RawMember) -> Result<Member, Fail<Flaw>>
    requires { checks.member_index_flaws pool.now (member_view raw.now) ≡ [] }
    ensures { Makes (checks.constant_flaws pool.now (member_view raw.now)) (grammar.field_value pool.now (member_view raw.now)) result }
{
    let constant = field_constant(alloc, pool, raw)?;
    let field = named(alloc, pool, raw, constant, None)?;
    Ok(field)
}

// The fields, or the first flaw of the fourth pass in one.
pub(crate) fn read_fields(
    alloc: Global,
    pool: &Pool,
    fields: &[RawMember],
) -> Result<Seq<Member>, Fail<Flaw>>
    requires { flat_map (checks.member_index_flaws pool.now) (map member_view fields.now) ≡ [] }
    ensures { Makes (flat_map (checks.constant_flaws pool.now) (map member_view fields.now)) (grammar.all_there (map (grammar.field_value pool.now) (map member_view fields.now))) result }
{
    let mut read = Seq::new(alloc);
    for raw in fields {
        let field = read_field(alloc, pool, raw)?;
        read.push(field)?;
    }
    Ok(read)
}

fn read_method(alloc: Global, class: &RawClass, raw: &RawMember) -> Result<Member, Fail<Flaw>>
    requires { checks.member_index_flaws class.now.pool (member_view raw.now) ≡ [] }
    ensures { Makes (checks.method_flaws (class_view class.now) (member_view raw.now)) (grammar.method_value class.now.pool (member_view raw.now)) result }
{
    let code = method_code(alloc, class, raw)?;
    let method = named(alloc, &class.pool, raw, None, code)?;
    Ok(method)
}

// The methods, or the first flaw of the fourth pass in one.
pub(crate) fn read_methods(
    alloc: Global,
    class: &RawClass,
    methods: &[RawMember],
) -> Result<Seq<Member>, Fail<Flaw>>
    requires { flat_map (checks.member_index_flaws class.now.pool) (map member_view methods.now) ≡ [] }
    ensures { Makes (flat_map (checks.method_flaws (class_view class.now)) (map member_view methods.now)) (grammar.all_there (map (grammar.method_value class.now.pool) (map member_view methods.now))) result }
{
    let mut read = Seq::new(alloc);
    for raw in methods {
        let method = read_method(alloc, class, raw)?;
        read.push(method)?;
    }
    Ok(read)
}
