//! The servers, with the settings of `default-server`.

use crate::acls::Names;
use crate::fates::{Fate, setting_fate};
use crate::lines::{Line, copied, word_of};
use crate::notes::Weight;
use crate::sections::Section;
use proxy_words::number;
use std::alloc::{AllocError, Global};

/// The translation of a `server` line.
#[derive(Drop)]
pub(crate) struct Server {
    /// The number of its line.
    pub(crate) line: usize,
    pub(crate) old: Vec<u8>,
    /// The line in the profile's words; `None` where the profile doesn't have it.
    pub(crate) words: Option<Vec<Vec<u8>>>,
    /// The effect of the line where the profile doesn't have it.
    pub(crate) lost: Fate,
    /// The effects of the words that are left out.
    pub(crate) changes: Vec<(Vec<u8>, Fate)>,
}

/// All servers of a section.
#[derive(Drop)]
pub(crate) struct Servers {
    pub(crate) all: Vec<Server>,
}

const NOTHING: Fate = Fate {
    weight: None,
    reason: "It would have been in maintenance from the start.",
};

const NO_TLS: Fate = Fate {
    weight: Some(Weight::Grave),
    reason: "The connection to it would have been TLS, which isn't there: it has no place.",
};

const NO_PROTOCOL: Fate = Fate {
    weight: Some(Weight::Grave),
    reason: "It wants another protocol than HTTP/1.1 in the clear, so it has no place.",
};

const NO_ADDRESS: Fate = Fate {
    weight: Some(Weight::Grave),
    reason: "Its address isn't an IPv4 address or a host's name with a port, so it has no place.",
};

const STRANGE: Fate = Fate {
    weight: Some(Weight::Grave),
    reason: "dueproxy convert doesn't know one of its words, so it has no place.",
};

const RESERVE: Fate = Fate {
    weight: Some(Weight::Grave),
    reason: "It would have served where those before it are down: here all of them serve.",
};

const BACKUP: Fate = Fate {
    weight: Some(Weight::Grave),
    reason: "It would have served where all others are down: here, with weight 0, it serves requests of use-server alone.",
};

/// What is known of a section when one of its servers is translated.
#[derive(Clone, Copy)]
pub(crate) struct Around<'a> {
    /// The port where clients connect, where there is one.
    pub(crate) port: Option<u32>,
    /// The section's `defaults`.
    pub(crate) defaults: Option<&'a Section>,
    /// All backup servers serve together where there are no others: `option allbackups`.
    pub(crate) all_spare: bool,
}

impl Servers {
    /// Translates the servers of a section.
    pub(crate) fn new(
        alloc: Global,
        section: &Section,
        around: Around,
    ) -> Result<Servers, AllocError> {
        let mut names = Names::new(alloc);
        let mut read = read_all(alloc, section, around.defaults)?;
        take_turns(read.as_mut_slice(), around.all_spare);
        let lines = section
            .lines
            .iter()
            .filter(|line| line.word(0) == b"server".as_slice());
        let mut all = Vec::new(alloc);
        for (line, settings) in lines.zip(read) {
            all.push(server_of(alloc, &mut names, line, around.port, settings)?)?;
        }
        Ok(Servers { all })
    }

    /// Returns the server of the line with this number.
    pub(crate) fn at(&self, line: usize) -> Option<&Server> {
        self.all.iter().find(|server| server.line == line)
    }

    /// Returns the server with this name.
    pub(crate) fn named(&self, name: &[u8]) -> Option<&Server> {
        self.all.iter().find(|server| server.old.as_slice() == name)
    }

    /// Returns the number of servers that the profile has.
    pub(crate) fn count(&self) -> usize {
        self.all
            .iter()
            .filter(|server| server.words.is_some())
            .count()
    }

    /// Says whether one of them has health checks.
    pub(crate) fn are_checked(&self) -> bool {
        self.all.iter().any(is_checked)
    }
}

fn is_checked(server: &Server) -> bool {
    match &server.words {
        Some(words) => words
            .iter()
            .any(|word| word.as_slice() == b"check".as_slice()),
        None => false,
    }
}

// Reads each server's line, with the settings of the `default-server` lines before it.
fn read_all(
    alloc: Global,
    section: &Section,
    defaults: Option<&Section>,
) -> Result<Vec<Settings>, AllocError> {
    let mut given = default_words(alloc, defaults)?;
    let mut read = Vec::new(alloc);
    for line in section.lines.iter() {
        if line.word(0) == b"default-server".as_slice() {
            add_words(alloc, &mut given, line.behind(1))?;
        } else if line.word(0) == b"server".as_slice() {
            let mut words = copied(alloc, &given)?;
            add_words(alloc, &mut words, line.behind(3))?;
            read.push(Settings::new(alloc, &words)?)?;
        }
    }
    Ok(read)
}

// Where all servers are backup servers, the first of them takes the requests as long as it is up.
fn take_turns(read: &mut [Settings], all_spare: bool) {
    if read
        .iter()
        .any(|settings| !settings.spare && !settings.disabled)
    {
        return;
    }
    let mut is_first = true;
    for settings in read.iter_mut() {
        if settings.spare && !settings.disabled {
            settings.spare = false;
            settings.reserve = !is_first && !all_spare;
            is_first = false;
        }
    }
}

fn default_words(alloc: Global, defaults: Option<&Section>) -> Result<Vec<Vec<u8>>, AllocError> {
    let mut words = Vec::new(alloc);
    if let Some(section) = defaults {
        for line in section.lines.iter() {
            if line.word(0) == b"default-server".as_slice() {
                add_words(alloc, &mut words, line.behind(1))?;
            }
        }
    }
    Ok(words)
}

fn add_words(alloc: Global, words: &mut Vec<Vec<u8>>, more: &[Vec<u8>]) -> Result<(), AllocError> {
    for word in more {
        words.push(Vec::from_slice(alloc, word.as_slice())?)?;
    }
    Ok(())
}

/// The settings of a server that the profile has, in the order of the output.
const KEPT: [&str; 6] = ["weight", "maxconn", "maxqueue", "inter", "rise", "fall"];

/// The settings after a server's address.
#[derive(Drop)]
struct Settings {
    /// The places of the values that are kept, the last one of each kind.
    values: [Option<usize>; 6],
    /// The words in which the values stand.
    words: Vec<Vec<u8>>,
    checked: bool,
    /// It is a backup server: it takes requests only where no other server can.
    spare: bool,
    /// It takes requests only where the backup servers before it can't.
    reserve: bool,
    /// It is in maintenance from the start.
    disabled: bool,
    /// The reason where the profile doesn't have the server.
    lost: Option<Fate>,
    changes: Vec<(Vec<u8>, Fate)>,
}

impl Settings {
    fn new(alloc: Global, words: &[Vec<u8>]) -> Result<Settings, AllocError> {
        let mut settings = Settings {
            values: [None; 6],
            words: copied(alloc, words)?,
            checked: false,
            spare: false,
            reserve: false,
            disabled: false,
            lost: None,
            changes: Vec::new(alloc),
        };
        let mut skipped = 0usize;
        for (at, word) in words.iter().enumerate() {
            if skipped > 0 {
                skipped -= 1;
            } else {
                skipped = settings.take(alloc, word.as_slice(), at)?;
            }
        }
        if settings.disabled {
            settings.lost = Some(NOTHING);
        }
        Ok(settings)
    }

    // Takes a setting, and returns the number of words after it that belong to it.
    fn take(&mut self, alloc: Global, word: &[u8], at: usize) -> Result<usize, AllocError> {
        if let Some(kind) = KEPT.iter().position(|name| word == name.as_bytes()) {
            if let Some(value) = self.values.get_mut(kind) {
                *value = Some(at.saturating_add(1));
            }
            return Ok(1);
        }
        match word {
            b"check" => self.checked = true,
            b"no-check" => self.checked = false,
            b"backup" => self.spare = true,
            b"no-backup" => self.spare = false,
            b"disabled" => self.disabled = true,
            b"enabled" => self.disabled = false,
            b"ssl" => self.lost = Some(NO_TLS),
            b"send-proxy" | b"send-proxy-v2" | b"send-proxy-v2-ssl" | b"send-proxy-v2-ssl-cn" => {
                self.lost = Some(NO_PROTOCOL);
            }
            b"proto" | b"socks4" | b"namespace" | b"redir" | b"proxy-v2-options" => {
                self.lost = Some(NO_PROTOCOL);
                return Ok(1);
            }
            _ => return self.take_other(alloc, word),
        }
        Ok(0)
    }

    fn take_other(&mut self, alloc: Global, word: &[u8]) -> Result<usize, AllocError> {
        let Some((arguments, fate)) = setting_fate(word) else {
            self.lost = Some(STRANGE);
            return Ok(0);
        };
        if fate.weight.is_some() {
            self.changes.push((Vec::from_slice(alloc, word)?, fate))?;
        }
        Ok(arguments)
    }

    // Appends the settings to the words of a line.
    fn push_to(&self, alloc: Global, line: &mut Vec<Vec<u8>>) -> Result<(), AllocError> {
        for (name, value) in KEPT.iter().zip(self.values.iter()) {
            let value = match value {
                _ if self.spare && *name == "weight" => b"0".as_slice(),
                Some(at) => word_of(&self.words, *at),
                None => continue,
            };
            line.push(Vec::from_slice(alloc, name.as_bytes())?)?;
            line.push(Vec::from_slice(alloc, value)?)?;
        }
        if self.checked {
            line.push(Vec::from_slice(alloc, b"check")?)?;
        }
        Ok(())
    }
}

fn server_of(
    alloc: Global,
    names: &mut Names,
    line: &Line,
    port: Option<u32>,
    settings: Settings,
) -> Result<Server, AllocError> {
    let address = if line.is_odd {
        None
    } else {
        address_of(alloc, line.word(2), port)?
    };
    let lost = settings.lost;
    let mut words = None;
    if let (Some(address), None) = (address, lost) {
        let name = names.give(alloc, line.word(1))?;
        words = Some(line_of(alloc, name, address, &settings)?);
    }
    let Settings {
        spare,
        reserve,
        mut changes,
        ..
    } = settings;
    if spare {
        changes.push((Vec::from_slice(alloc, b"backup")?, BACKUP))?;
    }
    if reserve {
        changes.push((Vec::from_slice(alloc, b"backup")?, RESERVE))?;
    }
    Ok(Server {
        line: line.number,
        old: Vec::from_slice(alloc, line.word(1))?,
        words,
        lost: lost.unwrap_or(NO_ADDRESS),
        changes,
    })
}

fn line_of(
    alloc: Global,
    name: Vec<u8>,
    address: Vec<u8>,
    settings: &Settings,
) -> Result<Vec<Vec<u8>>, AllocError> {
    let mut words = Vec::new(alloc);
    words.push(Vec::from_slice(alloc, b"server")?)?;
    words.push(name)?;
    words.push(address)?;
    settings.push_to(alloc, &mut words)?;
    Ok(words)
}

// Returns an address with its port. Where the port is missing or relative, HAProxy uses the port
// where the client connected.
fn address_of(
    alloc: Global,
    word: &[u8],
    port: Option<u32>,
) -> Result<Option<Vec<u8>>, AllocError> {
    let word = word.strip_prefix(b"ipv4@".as_slice()).unwrap_or(word);
    let colon = word
        .iter()
        .position(|byte| *byte == b':')
        .unwrap_or(word.len());
    let host = word.get(..colon).unwrap_or(b"".as_slice());
    let digits = word
        .get(colon.saturating_add(1)..)
        .unwrap_or(b"".as_slice());
    if is_transparent(host) {
        return Ok(None);
    }
    let Some(port) = port_of(digits, port) else {
        return Ok(None);
    };
    let mut address = Vec::from_slice(alloc, host)?;
    address.extend_from_slice(format!(in alloc; ":{port}")?.as_bytes())?;
    Ok(Some(address))
}

// Says whether an address stands for the one that the client connected to.
fn is_transparent(host: &[u8]) -> bool {
    matches!(host, b"" | b"*" | b"0.0.0.0") || host.contains(&b'@') || host.contains(&b'/')
}

fn port_of(digits: &[u8], port: Option<u32>) -> Option<u32> {
    if digits.is_empty() {
        return port;
    }
    let port = port.unwrap_or(0);
    if let Some(more) = digits.strip_prefix(b"+".as_slice()) {
        return port.checked_add(number(more)?);
    }
    if let Some(less) = digits.strip_prefix(b"-".as_slice()) {
        return port.checked_sub(number(less)?);
    }
    number(digits)
}
