//! The ACLs of a section, and their names where two sections are joined.

use crate::conditions::test_of;
use crate::lines::Line;
use crate::sections::Section;
use proxy_words::is_name;
use std::alloc::{AllocError, Global};

/// The names that are in use, so that none is used twice.
#[derive(Drop)]
pub(crate) struct Names {
    given: Vec<Vec<u8>>,
}

/// The most bytes of a name from which another one is made.
const MOST_STEM: usize = 24;

impl Names {
    pub(crate) fn new(alloc: Global) -> Names {
        Names {
            given: Vec::new(alloc),
        }
    }

    fn has(&self, name: &[u8]) -> bool {
        self.given.iter().any(|other| other.as_slice() == name)
    }

    /// Returns the wished name where it is free, or else another one that begins like it.
    pub(crate) fn give(&mut self, alloc: Global, wished: &[u8]) -> Result<Vec<u8>, AllocError> {
        let mut name = Vec::from_slice(alloc, wished)?;
        for number in 2..u32::MAX {
            if is_name(name.as_slice())
                && !is_reserved(name.as_slice())
                && !self.has(name.as_slice())
            {
                break;
            }
            let stem = wished
                .get(..wished.len().min(MOST_STEM))
                .unwrap_or(b"".as_slice());
            let end = format!(in alloc; "-{number}")?;
            name = Vec::from_slice(alloc, stem)?;
            name.extend_from_slice(end.as_bytes())?;
        }
        self.given.push(Vec::from_slice(alloc, name.as_slice())?)?;
        Ok(name)
    }
}

// Says whether a name is a word of conditions, which an ACL can't have as its name.
fn is_reserved(name: &[u8]) -> bool {
    name == b"or".as_slice()
}

/// An ACL and its name in the `listen`; `None` where one of its lines can't stand there.
#[derive(Drop)]
struct Acl {
    old: Vec<u8>,
    new: Option<Vec<u8>>,
}

/// The ACLs of one section.
#[derive(Drop)]
pub(crate) struct Acls {
    acls: Vec<Acl>,
}

impl Acls {
    /// Gathers a section's ACLs, with names that are free here.
    pub(crate) fn new(
        alloc: Global,
        section: &Section,
        names: &mut Names,
    ) -> Result<Acls, AllocError> {
        let mut all = Acls {
            acls: Vec::new(alloc),
        };
        for line in section.lines.iter() {
            if line.word(0) == b"acl".as_slice() && !all.has(line.word(1)) {
                let old = Vec::from_slice(alloc, line.word(1))?;
                let new = if is_whole(alloc, section, line.word(1))? {
                    Some(names.give(alloc, line.word(1))?)
                } else {
                    None
                };
                all.acls.push(Acl { old, new })?;
            }
        }
        Ok(all)
    }

    /// Returns the line of an ACL in the profile's words; `None` where it can't stand in the `listen`.
    pub(crate) fn line_of(
        &self,
        alloc: Global,
        line: &Line,
    ) -> Result<Option<Vec<Vec<u8>>>, AllocError> {
        let (Some(name), Some(test)) = (self.named(line.word(1)), test_of(alloc, line.behind(2))?)
        else {
            return Ok(None);
        };
        let mut words = Vec::new(alloc);
        words.push(Vec::from_slice(alloc, b"acl")?)?;
        words.push(Vec::from_slice(alloc, name)?)?;
        for word in test {
            words.push(word)?;
        }
        Ok(Some(words))
    }

    fn has(&self, name: &[u8]) -> bool {
        self.acls.iter().any(|acl| acl.old.as_slice() == name)
    }

    /// Returns an ACL's name in the `listen`.
    pub(crate) fn named(&self, name: &[u8]) -> Option<&[u8]> {
        let acl = self.acls.iter().find(|acl| acl.old.as_slice() == name)?;
        match &acl.new {
            Some(new) => Some(new.as_slice()),
            None => None,
        }
    }
}

// Says whether each line of an ACL can stand in the `listen`.
fn is_whole(alloc: Global, section: &Section, name: &[u8]) -> Result<bool, AllocError> {
    for line in section.lines.iter() {
        if line.word(0) == b"acl".as_slice() && line.word(1) == name && !is_plain(alloc, line)? {
            return Ok(false);
        }
    }
    Ok(true)
}

fn is_plain(alloc: Global, line: &Line) -> Result<bool, AllocError> {
    Ok(!line.is_odd && test_of(alloc, line.behind(2))?.is_some())
}
