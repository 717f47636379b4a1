use crate::assertions::holds;
use req_view::{Field, Values, View, Viewed, view};
use std::process::Abort;

/// A field's name, and its values in order.
struct ValuesRow {
    name: &'static str,
    values: &'static [&'static [u8]],
}

static VALUES: [ValuesRow; 4] = [
    ValuesRow {
        name: "x-due",
        values: &[b"5, 70", b"6"],
    },
    ValuesRow {
        name: "A",
        values: &[b""],
    },
    ValuesRow {
        name: "x-du",
        values: &[],
    },
    ValuesRow {
        name: "",
        values: &[],
    },
];

/// A field's name and its value.
pub type Named = (&'static [u8], &'static [u8]);

/// The field is there, with this name and this value.
pub fn is_field(rt: &impl Abort, field: Option<Field<'_>>, named: &Named, text: &str) {
    let field = field.expect(rt, "a field");
    let (name, value) = *named;
    let same = field.name == name && field.value == value;
    holds(rt, same, "field", text);
}

/// The values are these and no more.
pub fn are(rt: &impl Abort, values: Values<'_>, expected: &[&[u8]], name: &str) {
    let mut values = values;
    for value in expected {
        holds(rt, values.next() == Some(*value), "a value of", name);
    }
    holds(rt, values.next().is_none(), "no more of", name);
}

fn have_values(rt: &impl Abort, head: &View) {
    for row in &VALUES {
        are(rt, head.values(row.name.as_bytes()), row.values, row.name);
    }
}

#[test]
fn values_by_name(rt: HostRuntime) {
    let text = b"GET / HTTP/1.1\r\nHost: h\r\nX-Due: 5, 70\r\na:\r\nx-DUE: 6\r\n\r\n";
    let Viewed::Whole(head, _) = view(rt.alloc(), text) else {
        panic!(rt; "not a head");
    };
    have_values(&rt, &head);
    drop(head);
}
