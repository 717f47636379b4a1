//! Waits and lateness as Prometheus's histograms: each bin includes all below it.

use crate::exposition::{Family, Kind, Label, Value, push_count, push_family, push_time};
use crate::histogram::Histogram;
use crate::totals::{ClassNumbers, ProxyNumbers};
use std::alloc::AllocError;

static WAITS: Family = Family {
    name: "dueproxy_wait_seconds",
    kind: Kind::Histogram,
    help: "How long requests waited for the slots that they were given, from when they came.",
};

static LATENESS: Family = Family {
    name: "dueproxy_lateness_seconds",
    kind: Kind::Histogram,
    help: "How late requests were given their slots, below 0 where that was before they were due.",
};

// A histogram of a class.
#[derive(Clone, Copy)]
enum Of {
    Waits,
    Lateness,
}

impl Of {
    fn family(self) -> &'static Family {
        match self {
            Of::Waits => &WAITS,
            Of::Lateness => &LATENESS,
        }
    }

    fn histogram(self, class: &ClassNumbers) -> &Histogram {
        match self {
            Of::Waits => &class.waits,
            Of::Lateness => &class.lateness,
        }
    }
}

/// Writes both histograms of each class.
pub(crate) fn push_delays(text: &mut String, numbers: &ProxyNumbers) -> Result<(), AllocError> {
    push_of_classes(text, numbers, Of::Waits)?;
    push_of_classes(text, numbers, Of::Lateness)
}

fn push_of_classes(text: &mut String, numbers: &ProxyNumbers, of: Of) -> Result<(), AllocError> {
    let family = of.family();
    push_family(text, family)?;
    for (class, told) in numbers.classes.iter() {
        push_histogram(text, family.name, *class, of.histogram(told))?;
    }
    Ok(())
}

fn push_histogram(
    text: &mut String,
    name: &str,
    class: i64,
    histogram: &Histogram,
) -> Result<(), AllocError> {
    let mut sum = 0u64;
    for (number, count) in histogram.bins().iter().enumerate() {
        sum = sum.saturating_add(*count);
        let bound = histogram.bounds().get(number).copied();
        push_bin(text, name, class, (bound, sum))?;
    }
    let labels = [class_label(class)];
    push_time(text, (name, "_sum"), &labels, histogram.sum())?;
    push_count(text, (name, "_count"), &labels, sum)
}

// Writes how many values are at most this bound; without a bound all.
fn push_bin(
    text: &mut String,
    name: &str,
    class: i64,
    bin: (Option<i64>, u64),
) -> Result<(), AllocError> {
    let (bound, count) = bin;
    let bound = match bound {
        None => Value::Text("+Inf"),
        Some(bound) => Value::Millis(bound),
    };
    let labels = [
        class_label(class),
        Label {
            name: "le",
            value: bound,
        },
    ];
    push_count(text, (name, "_bucket"), &labels, count)
}

fn class_label<'a>(class: i64) -> Label<'a> {
    Label {
        name: "class",
        value: Value::Number(class),
    }
}
