ghost use Rattle.std.specs.Prelude.{◌≡◌, ◌↔◌, IsTrue, true, IfOk, is_some};
ghost use Rattle.std.specs.List.{list_all, list_any};
ghost use Rattle.pg_term.specs.declared.term.Term.{Term};
ghost use Rattle.pg_term.specs.Same.{same_term};
ghost use Rattle.pg_query.specs.SameGroups.{AgreeOn};

use pg_group::{GroupTable, Scope, one_member_list};
use pg_term::Term;
use std::alloc::{AllocError, Global};

/// Whether two tables say the same, however each is kept: the same groups, and of each the same members as often.
///
/// Errors: `AllocError`.
///
/// Cost: a `groups` of one table and then of the other, so that the names of one are held at a time; a `has` of each
/// for each name, and a `list` of each for each group of the first, up to the first that differs.
pub fn same_groups<T: GroupTable, U: GroupTable>(
    alloc: Global,
    one: &T,
    other: &U,
) -> Result<bool, AllocError>
    ensures { IfOk result (λ same. IsTrue same ↔ (T.contents one.now ≡ U.contents other.now)) }
{
    let names = one.groups()?;
    let agree = agree_on(alloc, one, other, names.as_slice());
    drop(names);
    match agree {
        Ok(true) => Ok(has_all(one, other.groups()?.as_slice())),
        other => other,
    }
}

/// Whether a table has all groups of these names.
fn has_all<T: GroupTable>(table: &T, names: &[Term]) -> bool
    ensures { result ≡ list_all (λ name. is_some (T.contents table.now name)) names.now }
{
    names.iter().all(|name| table.has(name))
}

/// Whether two tables say the same of the groups of these names.
fn agree_on<T: GroupTable, U: GroupTable>(
    alloc: Global,
    one: &T,
    other: &U,
    names: &[Term],
) -> Result<bool, AllocError>
    ensures { IfOk result (λ same. IsTrue same ↔ AgreeOn (T.contents one.now) (U.contents other.now) names.now) }
{
    for name in names {
        if !same_group(alloc, one, other, name)? {
            return Ok(false);
        }
    }
    Ok(true)
}

/// Whether two tables say the same of the group of a name: neither has it, or both have it with the same members as
/// often.
///
/// Errors: `AllocError`.
///
/// Cost: a `has` and a `list` of each.
pub fn same_group<T: GroupTable, U: GroupTable>(
    alloc: Global,
    one: &T,
    other: &U,
    name: &Term,
) -> Result<bool, AllocError>
    ensures { IfOk result (λ same. IsTrue same ↔ (T.contents one.now name.now ≡ U.contents other.now name.now)) }
{
    one_member_list();
    if one.has(name) != other.has(name) {
        return Ok(false);
    }
    let pids = one.list(alloc, name, Scope::All)?;
    let others = other.list(alloc, name, Scope::All)?;
    Ok(pids == others)
}
