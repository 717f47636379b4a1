use std::alloc::Global;
use std::process::Abort;

/// A bar of a picture.
#[derive(Drop)]
pub struct Seen {
    pub ticket: u64,
    pub waits: bool,
    pub from: u64,
    pub lasts: u64,
}

/// Returns the bars of a picture, in order.
pub fn bars_in(rt: &impl Abort, alloc: Global, picture: &str) -> Vec<Seen> {
    let mut bars = Vec::new(alloc);
    for line in picture.lines() {
        if let Some(bar) = bar_in(line) {
            bars.push(bar).expect(rt, "memory");
        }
    }
    bars
}

// Reads `<path class="kN KIND" d="MX YhWv..z"><title>ticket T, ..`.
fn bar_in(line: &str) -> Option<Seen> {
    let (looks, rest) = line
        .strip_prefix("<path class=\"k")?
        .split_once("\" d=\"M")?;
    let (_, kind) = looks.split_once(" ")?;
    let (from, rest) = rest.split_once(" ")?;
    Some(Seen {
        ticket: number_between(rest, "<title>ticket ", ",")?,
        waits: kind.starts_with("w"),
        from: from.parse().ok()?,
        lasts: number_between(rest, "h", "v")?,
    })
}

fn number_between(text: &str, before: &str, behind: &str) -> Option<u64> {
    let (_, rest) = text.split_once(before)?;
    rest.split_once(behind)?.0.parse().ok()
}

/// Says whether each tag that opens is closed in turn, and every special character is escaped.
pub fn is_well_formed(rt: &impl Abort, alloc: Global, text: &str) -> bool {
    let mut open = Vec::new(alloc);
    let mut pieces = text.split("<");
    let mut well = !text.is_empty() && pieces.next().is_some_and(is_plain);
    for piece in pieces {
        well = well && is_tag(rt, &mut open, piece);
    }
    well && open.is_empty()
}

// Says whether the text after a `<` is a tag that may stand there, and plain text. The open tags are kept.
fn is_tag<'a>(rt: &impl Abort, open: &mut Vec<&'a str>, piece: &'a str) -> bool {
    let Some((tag, text)) = piece.split_once(">") else {
        return false;
    };
    if let Some(name) = tag.strip_prefix("/") {
        return open.pop() == Some(name) && is_plain(text);
    }
    if !tag.ends_with("/") {
        let name = tag.split_once(" ").map_or(tag, |parts| parts.0);
        open.push(name).expect(rt, "memory");
    }
    is_plain(text)
}

fn is_plain(text: &str) -> bool {
    !text.contains(">") && !text.contains("&")
}
