ghost use Rattle.std.specs.Prelude.{◌≡◌, ◌<◌, length, IfSome};
ghost use Rattle.proxy_config.specs.Sound.{IsSoundConfig};
ghost use Rattle.prio_rules.specs.Wishes as rules;

use crate::conditions::{applies, guard_holds};
use crate::fields::last_value;
use due_key::{Class, Offset};
use proxy_config::{Acl, Action, Config, Expression, Items, Rule};
use proxy_words::signed_long_number;
use req_view::View;

/// What the rules wish for a request.
#[derive(Clone, Copy, Debug, PartialEq, Eq)]
pub struct Wish {
    pub class: Class,
    pub offset: Offset,
    /// The index of the configuration's server that is to serve it.
    pub pin: Option<usize>,
}

/// Returns what the rules of a configuration wish for a request: `http-request set-priority-class`,
/// `http-request set-priority-offset` and `use-server` in the file's order, each applied to the
/// request as it came.
///
/// The cost is `O(n)` in the rules, each times the values of its tests and the bytes of the fields
/// that they name, and nothing is copied. No `use-server` rule after the first one that applies is
/// tried.
pub fn decide(config: &Config, view: &View) -> Wish
    ensures exact { result ≡ rules.wish config.now view.now }
    // A pin is a server of the configuration.
    ensures known { IsSoundConfig config.now → IfSome result.pin (λ server. server < length config.now.servers) }
{
    Wish {
        class: Class::clamp(standing(Action::SetPriorityClass, config, view)),
        offset: Offset::clamp(standing(Action::SetPriorityOffset, config, view)),
        pin: pinned(config, view),
    }
}

// Returns the number of the last action of a kind that takes effect, or 0.
fn standing(action: Action, config: &Config, view: &View) -> i64
    ensures { result ≡ rules.standing action config.now view.now }
{
    let mut last = None;
    for rule in config.rules.as_slice() {
        last = set_by(action, &config.acls, view, rule).or(last);
    }
    last.unwrap_or(0)
}

fn set_by(action: Action, acls: &Items<Acl>, view: &View, rule: &Rule) -> Option<i64>
    ensures { result ≡ rules.set_by action acls.now view.now rule.now }
{
    if rule.action == action && applies(acls, view, &rule.guard) {
        asked_number(view, &rule.value)
    } else {
        None
    }
}

fn asked_number(view: &View, expression: &Expression) -> Option<i64>
    ensures { result ≡ rules.asked_number view.now expression.now }
{
    match expression {
        Expression::Int(number) => Some(*number),
        Expression::HeaderValue(name) => signed_long_number(last_value(view, name.as_slice())?),
    }
}

fn pinned(config: &Config, view: &View) -> Option<usize>
    ensures { result ≡ rules.pinned config.now view.now }
{
    let pin = config
        .pins
        .as_slice()
        .iter()
        .find(|pin| guard_holds(&config.acls, view, &pin.guard))?;
    Some(pin.server)
}
