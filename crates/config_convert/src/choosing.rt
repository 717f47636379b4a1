//! The choice of the sections that are joined.

use crate::sections::{Kind, Section, is_tcp};
use crate::settling::Unconverted;
use std::alloc::Global;

/// The section where clients connect, and the one with the servers: the same for a `listen`.
#[derive(Clone, Copy, Debug, PartialEq, Eq)]
pub(crate) struct Choice {
    pub(crate) front: usize,
    pub(crate) back: usize,
}

/// Chooses the named sections, or else the first HTTP `frontend` or `listen` that has servers.
pub(crate) fn choose(
    alloc: Global,
    sections: &[Section],
    frontend: Option<&str>,
    backend: Option<&str>,
) -> Result<Choice, Unconverted> {
    let front = front_of(sections, frontend, backend);
    let Some(front) = front else {
        return Err(no_front(alloc, sections, frontend, backend)?);
    };
    let Some(back) = back_of(sections, front, backend) else {
        return Err(no_back(alloc, sections, front, backend)?);
    };
    for at in [front, back] {
        if is_tcp(sections, at) {
            let name = named(
                alloc,
                sections
                    .get(at)
                    .map_or(b"".as_slice(), |section| section.name()),
            )?;
            return Err(Unconverted::Tcp { name });
        }
    }
    Ok(Choice { front, back })
}

fn front_of(sections: &[Section], frontend: Option<&str>, backend: Option<&str>) -> Option<usize> {
    match frontend {
        Some(name) => sections.iter().position(|section| is_front(section)
            && section.name() == name.as_bytes()),
        None => sections.iter().enumerate().position(|(at, section)| {
            is_front(section)
                && !section.has(b"disabled".as_slice())
                && !is_tcp(sections, at)
                && back_of(sections, at, backend).is_some()
        }),
    }
}

fn is_front(section: &Section) -> bool {
    matches!(section.kind, Kind::Frontend | Kind::Listen)
}

// Returns the section with the servers of this one.
fn back_of(sections: &[Section], front: usize, backend: Option<&str>) -> Option<usize> {
    if let Some(name) = backend {
        return backend_named(sections, name.as_bytes());
    }
    let section = sections.get(front)?;
    if let Some(line) = section.last(b"default_backend".as_slice()) {
        return backend_named(sections, line.word(1));
    }
    if section.kind == Kind::Listen && section.has(b"server".as_slice()) {
        return Some(front);
    }
    let always = section.lines.iter().find(|line| line.word(0) == b"use_backend".as_slice()
        && line.words.len() == 2)?;
    backend_named(sections, always.word(1))
}

fn backend_named(sections: &[Section], name: &[u8]) -> Option<usize> {
    sections.iter().position(|section| {
        matches!(section.kind, Kind::Backend | Kind::Listen) && section.name() == name
    })
}

fn no_front(
    alloc: Global,
    sections: &[Section],
    frontend: Option<&str>,
    backend: Option<&str>,
) -> Result<Unconverted, Unconverted> {
    let there = names_of(alloc, sections, true)?;
    match (frontend, backend) {
        (Some(name), _) => Ok(Unconverted::NoFrontend {
            name: String::from_str(alloc, name)?,
            there,
        }),
        (None, Some(name)) if backend_named(sections, name.as_bytes()).is_none() => {
            no_backend(alloc, sections, name)
        }
        (None, _) => Ok(Unconverted::NoServers { there }),
    }
}

fn no_backend(alloc: Global, sections: &[Section], name: &str) -> Result<Unconverted, Unconverted> {
    let there = names_of(alloc, sections, false)?;
    let name = String::from_str(alloc, name)?;
    Ok(Unconverted::NoBackend { name, there })
}

fn no_back(
    alloc: Global,
    sections: &[Section],
    front: usize,
    backend: Option<&str>,
) -> Result<Unconverted, Unconverted> {
    let there = names_of(alloc, sections, false)?;
    match backend {
        Some(name) => no_backend(alloc, sections, name),
        None => Ok(Unconverted::NoDefault {
            name: named(
                alloc,
                sections
                    .get(front)
                    .map_or(b"".as_slice(), |section| section.name()),
            )?,
            there,
        }),
    }
}

// Returns the names of the sections where clients connect, or of those with servers.
fn names_of(alloc: Global, sections: &[Section], fronts: bool) -> Result<String, Unconverted> {
    let mut text = String::new(alloc);
    for section in sections {
        let counts = if fronts {
            is_front(section)
        } else {
            section.kind == Kind::Backend
        };
        if counts {
            text.push_str(if text.is_empty() { "" } else { ", " })?;
            text.push_str(named(alloc, section.name())?.as_str())?;
        }
    }
    if text.is_empty() {
        text.push_str("none")?;
    }
    Ok(text)
}

/// Returns a name with its unprintable bytes replaced.
pub(crate) fn named(alloc: Global, bytes: &[u8]) -> Result<String, Unconverted> {
    let mut text = String::new(alloc);
    for byte in bytes {
        text.push(match *byte {
            b' '..=b'~' => char::from(*byte),
            _ => '?',
        })?;
    }
    Ok(text)
}
