//! The lines of ACLs and rules.

ghost use Rattle.std.specs.Prelude.{◌≡◌, ◌∷◌, [], Ok, IfOk, position};
ghost use Rattle.std.specs.Str.{bytes_eq};
ghost use Rattle.proxy_config.specs.Outcomes.{Gives, Becomes};
ghost use Rattle.proxy_config.specs.Rules as grammar;

use crate::conditions::{acl_index, optional_guard};
use crate::faults::{FaultCause, LineError};
use crate::names::is_acl_name;
use crate::parts::{Acl, Action, Rule, Server, Test};
use crate::pieces::{is, word};
use crate::samples::{expression, test_to_end};
use base_lists::Items;
use proxy_words::Words;
use std::alloc::{AllocError, Global};

/// Reads `acl NAME TEST`.
#[tactic(auto, unfolding(crate::specs::Rules::acl_line))]
pub(crate) fn acl_line(alloc: Global, acls: &mut Items<Acl>, words: Words) -> Result<(), LineError>
    ensures { Becomes result acls.old acls.new (grammar.acl_line acls.old words.entry) }
{
    let (name, words) = word(words)?;
    if !is_acl_name(name) {
        return Err(FaultCause::Name.into());
    }
    let test = test_to_end(alloc, words)?;
    add_test(alloc, acls, name, test)
}

/// Reads `http-request ACTION EXPRESSION`, and a guard or nothing.
#[tactic(auto, unfolding(crate::specs::Rules::rule_line))]
pub(crate) fn rule_line(alloc: Global, acls: &Items<Acl>, words: Words) -> Result<Rule, LineError>
    ensures { Gives (λ x. x) result (grammar.rule_line acls.now words.entry) }
{
    let (first, words) = word(words)?;
    let action = action_of(first).ok_or(FaultCause::Keyword)?;
    let (second, words) = word(words)?;
    let value = expression(alloc, second)?;
    let guard = optional_guard(alloc, acls, words)?;
    Ok(Rule {
        action,
        value,
        guard,
    })
}

// Adds one more alternative to an ACL, or a new ACL.
fn add_test(alloc: Global, acls: &mut Items<Acl>, name: &[u8], test: Test) -> Result<(), LineError>
    ensures { Becomes result acls.old acls.new (Ok (grammar.with_test name.now test acls.old)) }
{
    match acl_index(name, acls) {
        Some(i) => acls.items[i].tests.push(test)?,
        None => {
            let acl = acl_of(alloc, name, test)?;
            acls.push(acl)?;
        }
    }
    Ok(())
}

// Makes an ACL with one alternative.
fn acl_of(alloc: Global, name: &[u8], test: Test) -> Result<Acl, AllocError>
    ensures { IfOk result (λ acl. acl ≡ record { name = name.now; tests = test ∷ [] }) }
{
    let name = Items::copied(alloc, name)?;
    let mut tests = Items::new(alloc);
    tests.push(test)?;
    Ok(Acl { name, tests })
}

fn action_of(word: &[u8]) -> Option<Action>
    ensures { result ≡ grammar.action_of word.now }
{
    if is(word, "set-priority-class") {
        Some(Action::SetPriorityClass)
    } else if is(word, "set-priority-offset") {
        Some(Action::SetPriorityOffset)
    } else {
        None
    }
}

pub(crate) fn server_index(name: &[u8], servers: &Items<Server>) -> Option<usize>
    ensures { result ≡ grammar.server_index name.now servers.now }
{
    servers
        .as_slice()
        .iter()
        .position(|server| is_server(name, server))
}

fn is_server(name: &[u8], server: &Server) -> bool
    ensures { result ≡ bytes_eq server.now.name name.now }
{
    server.name.as_slice() == name
}
