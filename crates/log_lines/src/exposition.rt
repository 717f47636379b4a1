//! Prometheus's text format.

ghost use Rattle.std.specs.Prelude.{◌≡◌, ◌++◌, OnOk, string_bytes};
ghost use Rattle.log_lines.specs.Texts.{family_text, kind_word, seconds_text, size_text};

use std::alloc::AllocError;

/// The kind of a family of samples.
#[derive(Clone, Copy, Debug, PartialEq, Eq)]
pub(crate) enum Kind {
    Counter,
    Gauge,
    Histogram,
}

/// A family: the samples of one name.
#[derive(Clone, Copy, Debug, PartialEq, Eq)]
pub(crate) struct Family {
    pub name: &'static str,
    pub kind: Kind,
    pub help: &'static str,
}

/// The value of a label.
#[derive(Clone, Copy, Debug, PartialEq, Eq)]
pub(crate) enum Value<'a> {
    Text(&'a str),
    Number(i64),
    /// A bound in milliseconds, which is written in seconds.
    Millis(i64),
}

/// A label of a sample.
#[derive(Clone, Copy, Debug, PartialEq, Eq)]
pub(crate) struct Label<'a> {
    pub name: &'a str,
    pub value: Value<'a>,
}

impl Kind {
    fn word(self) -> &'static str
        ensures { result.now ≡ kind_word self }
    {
        match self {
            Kind::Counter => "counter",
            Kind::Gauge => "gauge",
            Kind::Histogram => "histogram",
        }
    }
}

/// Writes the lines of a family before its samples.
pub(crate) fn push_family(text: &mut String, family: &Family) -> Result<(), AllocError>
    ensures { OnOk result (string_bytes text.new ≡ string_bytes text.old ++ family_text family.now) }
{
    let name = family.name;
    let help = family.help;
    let kind = family.kind.word();
    writeln!(text, "# HELP {name} {help}\n# TYPE {name} {kind}")
}

/// Writes a sample, of a name with this suffix.
pub(crate) fn push_count(
    text: &mut String,
    name: (&str, &str),
    labels: &[Label],
    count: u64,
) -> Result<(), AllocError> {
    push_name(text, name, labels)?;
    writeln!(text, " {count}")
}

/// The same for a time in milliseconds, which is written in seconds.
pub(crate) fn push_time(
    text: &mut String,
    name: (&str, &str),
    labels: &[Label],
    millis: i64,
) -> Result<(), AllocError> {
    push_name(text, name, labels)?;
    text.push(' ')?;
    push_seconds(text, millis)?;
    text.push('\n')
}

/// The same for the value `+Inf`, which is above all numbers.
pub(crate) fn push_endless(
    text: &mut String,
    name: (&str, &str),
    labels: &[Label],
) -> Result<(), AllocError> {
    push_name(text, name, labels)?;
    text.push_str(" +Inf\n")
}

fn push_name(text: &mut String, name: (&str, &str), labels: &[Label]) -> Result<(), AllocError> {
    text.push_str(name.0)?;
    text.push_str(name.1)?;
    if labels.is_empty() {
        return Ok(());
    }
    let mut before = '{';
    for label in labels {
        text.push(before)?;
        push_label(text, label)?;
        before = ',';
    }
    text.push('}')
}

fn push_label(text: &mut String, label: &Label) -> Result<(), AllocError> {
    text.push_str(label.name)?;
    text.push_str("=\"")?;
    match label.value {
        Value::Text(value) => push_escaped(text, value)?,
        Value::Number(number) => write!(text, "{number}")?,
        Value::Millis(millis) => push_seconds(text, millis)?,
    }
    text.push('"')
}

/// Writes the value of a label, with a backslash before the characters that would end it.
pub(crate) fn push_escaped(text: &mut String, value: &str) -> Result<(), AllocError> {
    for letter in value.chars() {
        match letter {
            '\\' => text.push_str("\\\\")?,
            '"' => text.push_str("\\\"")?,
            '\n' => text.push_str("\\n")?,
            _ => text.push(letter)?,
        }
    }
    Ok(())
}

/// Writes a time in milliseconds as seconds, with three decimal places.
pub(crate) fn push_seconds(text: &mut String, millis: i64) -> Result<(), AllocError>
    ensures { OnOk result (string_bytes text.new ≡ string_bytes text.old ++ seconds_text millis) }
{
    if millis < 0 {
        text.push_str("-")?;
    }
    push_size(text, millis.unsigned_abs())
}

fn push_size(text: &mut String, size: u64) -> Result<(), AllocError>
    ensures { OnOk result (string_bytes text.new ≡ string_bytes text.old ++ size_text size) }
{
    let whole = size / 1000;
    let tenths = size / 100 % 10;
    let hundredths = size / 10 % 10;
    let thousandths = size % 10;
    write!(text, "{whole}.{tenths}{hundredths}{thousandths}")
}
