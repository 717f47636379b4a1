use super::*;

const FILE: &[u8] = b"listen w\n\
bind :80\n\
acl slow hdr(x-t) -i slow later\n\
use-server b if slow or !{ method POST } !slow\n\
acl slow path_beg /s\n\
server a h:80\n\
server b h:81\n\
http-request set-priority-class int(-9999)\n\
http-request set-priority-offset req.hdr_val(x-due) unless { path_end a } || slow\n";

fn has_acls(rt: &impl Abort, acls: &[Acl]) {
    let [slow] = acls else {
        panic!(rt; "not one ACL");
    };
    let named = slow.name.as_slice() == b"slow".as_slice();
    holds(rt, named, "the ACL", "name");
    has_tests(rt, slow.tests.as_slice());
}

fn has_tests(rt: &impl Abort, tests: &[Test]) {
    let [field, path] = tests else {
        panic!(rt; "not two tests");
    };
    let cases = field.ignore_case && !path.ignore_case;
    holds(rt, cases, "the ACL", "cases of letters");
    holds(rt, field.values.len() == 2, "the ACL", "values");
    let begins = matches!(path.subject, Subject::PathBegin);
    holds(rt, begins, "the ACL", "subject");
}

fn has_pins(rt: &impl Abort, pins: &[Pin]) {
    let [pin] = pins else {
        panic!(rt; "not one pin");
    };
    holds(rt, pin.server == 1, "the pin", "server");
    let Guard::If(condition) = &pin.guard else {
        panic!(rt; "not an if");
    };
    has_alternatives(rt, condition);
}

fn has_alternatives(rt: &impl Abort, condition: &Condition) {
    let [first, second] = condition.alternatives.as_slice() else {
        panic!(rt; "not two alternatives");
    };
    holds(rt, first.len() == 1, "the pin", "first alternative");
    has_terms(rt, second.as_slice());
}

fn has_terms(rt: &impl Abort, terms: &[Term]) {
    let [test, acl] = terms else {
        panic!(rt; "not two terms");
    };
    let negated = test.negated && acl.negated;
    holds(rt, negated, "the pin", "terms that are turned round");
    let operands = matches!(test.operand, Operand::Test(_))
        && matches!(acl.operand, Operand::Acl(0));
    holds(rt, operands, "the pin", "operands");
}

fn has_rules(rt: &impl Abort, rules: &[Rule]) {
    let [class, offset] = rules else {
        panic!(rt; "not two rules");
    };
    sets_class(rt, class);
    sets_offset(rt, offset);
}

fn sets_class(rt: &impl Abort, rule: &Rule) {
    let sets = rule.action == Action::SetPriorityClass && rule.guard.is_none();
    holds(rt, sets, "the first rule", "action");
    let number = matches!(rule.value, Expression::Int(-9999));
    holds(rt, number, "the first rule", "number");
}

fn sets_offset(rt: &impl Abort, rule: &Rule) {
    let Expression::HeaderValue(field) = &rule.value else {
        panic!(rt; "no field");
    };
    let named = field.as_slice() == b"x-due".as_slice();
    holds(rt, named, "the second rule", "field");
    let Some(Guard::Unless(condition)) = &rule.guard else {
        panic!(rt; "not unless");
    };
    let two = condition.alternatives.len() == 2;
    holds(rt, two, "the second rule", "alternatives");
}

#[test]
fn rules_name_acls_and_servers(rt: HostRuntime) {
    let config = read(rt.alloc(), FILE).expect(&rt, "a configuration");
    has_acls(&rt, config.acls.as_slice());
    has_pins(&rt, config.pins.as_slice());
    has_rules(&rt, config.rules.as_slice());
    drop(config);
}
