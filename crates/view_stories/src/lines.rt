ghost use Rattle.std.specs.Prelude.{◌≡◌, ◌++◌, OnOk, codes, map, string_bytes};
ghost use Rattle.view_stories.specs.Stories.{AddsStory, count_text, lines_text};

use std::alloc::{AllocError, Global};

/// The most lines of a story.
pub const MOST_LINES: usize = 20;

/// The lines of a story.
#[derive(Drop)]
pub(crate) struct Story {
    alloc: Global,
    lines: Vec<String>,
}

impl Story {
    pub(crate) fn new(alloc: Global) -> Story {
        Story {
            alloc,
            lines: Vec::new(alloc),
        }
    }

    /// Begins a line.
    pub(crate) fn line(&self) -> String {
        String::new(self.alloc)
    }

    pub(crate) fn add(&mut self, line: String) -> Result<(), AllocError> {
        self.lines.push(line)?;
        Ok(())
    }

    /// Appends the lines; of too many the first ones, and in the last line the number of the others.
    pub(crate) fn push_to(&self, text: &mut String) -> Result<(), AllocError>
        ensures { OnOk result (AddsStory (string_bytes text.old) (string_bytes text.new)) }
    {
        let lines = self.lines.as_slice();
        if lines.len() <= MOST_LINES {
            push_lines(text, lines)?;
            return Ok(());
        }
        let (first, others) = lines.split_at(MOST_LINES - 1);
        push_lines(text, first)?;
        push_count(text, others.len())?;
        Ok(())
    }
}

fn push_lines(text: &mut String, lines: &[String]) -> Result<(), AllocError>
    ensures { OnOk result (string_bytes text.new ≡ string_bytes text.old ++ lines_text (map string_bytes lines.now)) }
{
    for line in lines {
        push_line(text, line.as_str())?;
    }
    Ok(())
}

fn push_line(text: &mut String, line: &str) -> Result<(), AllocError>
    ensures { OnOk result (string_bytes text.new ≡ string_bytes text.old ++ (line.now ++ codes "\n")) }
{
    writeln!(text, "{line}")
}

fn push_count(text: &mut String, more: usize) -> Result<(), AllocError>
    ensures { OnOk result (string_bytes text.new ≡ string_bytes text.old ++ (count_text more ++ codes "\n")) }
{
    write!(text, "and {more} more lines")?;
    text.push_str("\n")
}
