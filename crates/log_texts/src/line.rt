ghost use Rattle.std.specs.Prelude.{◌≡◌, IfSome};
ghost use Rattle.log_texts.specs.Lines.{kind_of_line, step_in};
ghost use Rattle.log_texts.specs.Reading.{IsWithinLine};
ghost use Rattle.log_texts.specs.Steps.{is_skipped};

use crate::setting::{Setting, setting_of};
use crate::step::{Step, step_of};
use proxy_words::Words;

/// The kind of a script's line.
#[derive(Debug, Drop)]
pub enum Line<'a> {
    /// A header line, and its setting.
    Setting(Setting<'a>),
    /// An event, or the next window.
    Step(Step<'a>),
    /// Skipped: it has no word, or its first byte is `#`.
    Skipped,
}

impl<'a> Line<'a> {
    /// Returns the kind of a line; `None` where it has none.
    pub fn of(line: &'a [u8]) -> Option<Line<'a>>
        ensures value { result ≡ kind_of_line line.now }
        ensures within { IfSome result IsWithinLine }
    {
        if let Some(step) = step_of(line) {
            return Some(Line::Step(step));
        }
        if let Some(setting) = setting_of(line) {
            return Some(Line::Setting(setting));
        }
        if is_skipped(line) {
            Some(Line::Skipped)
        } else {
            None
        }
    }
}

/// Returns the step of such a line, if it has one.
pub fn step_in(kind: Option<Line>) -> Option<Step>
    ensures { result ≡ step_in kind.entry }
{
    match kind {
        Some(Line::Step(step)) => Some(step),
        _ => None,
    }
}

fn is_skipped(line: &[u8]) -> bool
    ensures { result ≡ is_skipped line.now }
{
    Words::new(line).next().is_none() || line[0] == b'#'
}
