//! The conditions of a configuration, applied to a request.

ghost use Rattle.std.specs.Prelude.{◌≡◌};
ghost use Rattle.std.specs.List.{list_all};
ghost use Rattle.std.specs.Option.{option_copied};
ghost use Rattle.prio_rules.specs.Truth as truth;

use crate::samples::{acl_holds, test_holds};
use proxy_config::{Acl, Condition, Guard, Items, Operand, Term};
use req_view::View;

/// A rule without a guard always applies.
pub(crate) fn applies(acls: &Items<Acl>, view: &View, guard: &Option<Guard>) -> bool
    ensures { result ≡ truth.applies acls.now view.now guard.now }
{
    match guard {
        None => true,
        Some(guard) => guard_holds(acls, view, guard),
    }
}

pub(crate) fn guard_holds(acls: &Items<Acl>, view: &View, guard: &Guard) -> bool
    ensures { result ≡ truth.guard_holds acls.now view.now guard.now }
{
    match guard {
        Guard::If(condition) => condition_holds(acls, view, condition),
        Guard::Unless(condition) => !condition_holds(acls, view, condition),
    }
}

fn condition_holds(acls: &Items<Acl>, view: &View, condition: &Condition) -> bool
    ensures { result ≡ truth.condition_holds acls.now view.now condition.now }
{
    condition
        .alternatives
        .as_slice()
        .iter()
        .any(|terms| all_hold(acls, view, terms))
}

fn all_hold(acls: &Items<Acl>, view: &View, terms: &Items<Term>) -> bool
    ensures { result ≡ list_all (truth.term_holds acls.now view.now) terms.now }
{
    terms
        .as_slice()
        .iter()
        .all(|term| term_holds(acls, view, term))
}

fn term_holds(acls: &Items<Acl>, view: &View, term: &Term) -> bool
    ensures { result ≡ truth.term_holds acls.now view.now term.now }
{
    let holds = operand_holds(acls, view, &term.operand);
    if term.negated { !holds } else { holds }
}

fn operand_holds(acls: &Items<Acl>, view: &View, operand: &Operand) -> bool
    ensures { result ≡ truth.operand_holds acls.now view.now operand.now }
{
    match operand {
        Operand::Acl(index) => named_holds(view, acls.as_slice().get(*index)),
        Operand::Test(test) => test_holds(view, test),
    }
}

fn named_holds(view: &View, acl: Option<&Acl>) -> bool
    ensures { result ≡ truth.named_holds view.now (option_copied acl.entry) }
{
    match acl {
        None => false,
        Some(acl) => acl_holds(view, acl),
    }
}
