ghost use Rattle.std.specs.Prelude.{◌≡◌, ◌<◌, ◌≤◌, ℕ, Some, true, false, [], length, take, IfOk, IfErr, IfSome, OnOk, IsTrue};
ghost use Rattle.log_entries.specs.Setups.{is_within};
ghost use Rattle.std.specs.Str.Lines.{lines};
ghost use Rattle.log_texts.specs.Headers.{Settings, settings_of, all_of, SettingsAreWithin};
ghost use Rattle.log_texts.specs.Faults.{fault_of, fault_behind};
ghost use Rattle.log_texts.specs.Lines.{clashes, is_fault, is_step_line};
ghost use Rattle.log_texts.specs.Reading.{SettingIsWithin, IsWithinLine, IsHeader, with_setting, with_kind};

use crate::line::Line;
use crate::name::Name;
use crate::names::Names;
use crate::setting::Setting;
use log_entries::{ServerSet, Servers};
use proxy_words::Lines;
use std::alloc::{AllocError, Global};
use std::marker::Model;
use thiserror::Error;

/// The most bytes of a script.
pub const MOST_BYTES: usize = 4_194_304;

/// The most servers.
const MOST_SERVERS: usize = 64;

/// The settings of a script's header lines.
#[derive(Debug, Drop)]
pub struct Header {
    names: Names,
    servers: Vec<ServerSet>,
    places: Option<usize>,
    log: Option<usize>,
    retries: Option<u32>,
    redispatch: bool,
    queue_timeout: Option<u64>,
}

impl Model for Header {
    ghost use Rattle.log_texts.specs.Headers.{Settings, SettingsAreWithin};

    ghost Value = { Settings };

    ghost view = { λ header. record { names = header.names; servers = header.servers.items; places = header.places; log = header.log; retries = header.retries; redispatch = header.redispatch; queue_timeout = header.queue_timeout } };

    ghost invariant = { λ header. SettingsAreWithin (record { names = header.names; servers = header.servers.items; places = header.places; log = header.log; retries = header.retries; redispatch = header.redispatch; queue_timeout = header.queue_timeout }) };
}

/// Why a script wasn't read.
#[derive(Clone, Copy, Debug, PartialEq, Eq, Error)]
pub enum ScriptError {
    /// The system refused memory.
    #[error("no memory")]
    NoMemory,
    /// The number of the first faulty line, from 1; 0 where the script is too long.
    #[error("script line {line}")]
    Fault { line: usize },
}

// Why a line was refused.
#[derive(Clone, Copy)]
enum LineError {
    NoMemory,
    Faulty,
}

/// Reads the header lines of a script, those before its first step, and returns their number too.
/// An error is the first faulty one of them: a line that is neither a header line nor empty nor a
/// comment, a server's name again, or a 65th server. The lines after them are left to
/// [`is_faulty`]. A script of more than [`MOST_BYTES`] bytes is faulty as a whole: line 0. One pass
/// over the header's bytes; it allocates for the servers.
pub fn read(alloc: Global, script: &[u8]) -> Result<(Header, usize), ScriptError>
    ensures short { OnOk result (fault_of script.now ≡ fault_behind [] (lines script.now)) }
    ensures header { IfOk result (λ read. IsHeader (lines script.now) read.1) }
    ensures settings { IfOk result (λ read. read.0 ≡ settings_of (take read.1 (lines script.now))) }
    ensures fault { IfErr result (λ error. (line : ℕ) → error ≡ ScriptError.Fault line → fault_of script.now ≡ Some line) }
{
    if MOST_BYTES < script.len() {
        return Err(ScriptError::Fault { line: 0 });
    }
    read_lines(alloc, script)
}

fn read_lines(alloc: Global, script: &[u8]) -> Result<(Header, usize), ScriptError>
    ensures header { IfOk result (λ read. IsHeader (lines script.now) read.1) }
    ensures settings { IfOk result (λ read. read.0 ≡ settings_of (take read.1 (lines script.now))) }
    ensures fault { IfErr result (λ error. (line : ℕ) → error ≡ ScriptError.Fault line → fault_behind [] (lines script.now) ≡ Some line) }
{
    let mut header = Header::new(alloc);
    let mut number = 0;
    let mut lines = Lines::new(script);
    'lines: while let Some(line) = lines.next() {
        let kind = Line::of(line);
        if is_step(&kind) {
            return Ok((header, number));
        }
        number += 1;
        match header.take(alloc, kind) {
            Ok(()) => {}
            Err(LineError::NoMemory) => return Err(ScriptError::NoMemory),
            Err(LineError::Faulty) => return Err(ScriptError::Fault { line: number }),
        }
    }
    Ok((header, number))
}

/// Says whether a line of this kind is faulty after the first step of a script: it is a header
/// line, or none of those that may stand there.
pub fn is_faulty(kind: &Option<Line>) -> bool
    ensures { (settings : Settings) → result ≡ is_fault settings true kind.now }
{
    match kind {
        None | Some(Line::Setting(_)) => true,
        Some(_) => false,
    }
}

impl Header {
    fn new(alloc: Global) -> Header
        ensures { result ≡ all_of [] }
    {
        Header {
            names: Names::new(Vec::new(alloc)),
            servers: Vec::new(alloc),
            places: None,
            log: None,
            retries: None,
            redispatch: false,
            queue_timeout: None,
        }
    }

    /// Returns the number of places that a line sets, if one does.
    pub fn places(&self) -> Option<usize>
        ensures value { result ≡ self.now.places }
        ensures within { SettingsAreWithin self.now }
    {
        self.places
    }

    /// Returns the room of the log that a line sets, if one does.
    pub fn log(&self) -> Option<usize>
        ensures value { result ≡ self.now.log }
        ensures within { SettingsAreWithin self.now }
    {
        self.log
    }

    /// Returns the number of further tries that a line sets, if one does.
    pub fn retries(&self) -> Option<u32>
        ensures value { result ≡ self.now.retries }
        ensures within { SettingsAreWithin self.now }
    {
        self.retries
    }

    /// Says whether there is a `redispatch` line.
    pub fn redispatch(&self) -> bool
        ensures { result ≡ self.now.redispatch }
    {
        self.redispatch
    }

    /// Returns the longest stay in a queue that a line sets, in milliseconds, where 0 is without
    /// limit, if one does.
    pub fn queue_timeout(&self) -> Option<u64>
        ensures value { result ≡ self.now.queue_timeout }
        ensures within { SettingsAreWithin self.now }
    {
        self.queue_timeout
    }

    /// Returns the names and the settings of the servers.
    pub fn into_servers(self) -> (Names, Servers)
        ensures value { (result.0 ≡ self.names) × (result.1 ≡ self.servers) }
        ensures within { SettingsAreWithin self }
    {
        let Header {
            names,
            servers,
            places: _,
            log: _,
            retries: _,
            redispatch: _,
            queue_timeout: _,
        } = self;
        (names, Servers::from_vec(servers))
    }

    // Takes a line that isn't a step, by its kind.
    fn take(&mut self, alloc: Global, kind: Option<Line>) -> Result<(), LineError>
        requires { IfSome kind IsWithinLine }
        ensures ok { OnOk result ((is_fault self.old false kind.entry ≡ false) × (self.new ≡ with_kind self.old kind.entry)) }
        ensures err { IfErr result (λ error. error ≡ LineError.Faulty → is_fault self.old false kind.entry ≡ true) }
    {
        match kind {
            Some(Line::Setting(setting)) => self.set(alloc, setting),
            Some(_) => Ok(()),
            None => Err(LineError::Faulty),
        }
    }

    fn set(&mut self, alloc: Global, setting: Setting) -> Result<(), LineError>
        requires { SettingIsWithin setting }
        ensures ok { OnOk result ((clashes self.old setting.entry ≡ false) × (self.new ≡ with_setting self.old setting.entry)) }
        ensures err { IfErr result (λ error. error ≡ LineError.Faulty → clashes self.old setting.entry ≡ true) }
    {
        match setting {
            Setting::Places(places) => {
                self.places = Some(places);
                Ok(())
            }
            Setting::LogRoom(room) => {
                self.log = Some(room);
                Ok(())
            }
            Setting::Retries(retries) => {
                self.retries = Some(retries);
                Ok(())
            }
            Setting::Redispatch => {
                self.redispatch = true;
                Ok(())
            }
            Setting::QueueTimeout(timeout) => {
                self.queue_timeout = Some(timeout);
                Ok(())
            }
            Setting::Server(name, server) => self.add(alloc, &name, server),
        }
    }

    fn add(&mut self, alloc: Global, name: &Name, server: ServerSet) -> Result<(), LineError>
        requires { SettingIsWithin (Setting.Server name.now server) }
        ensures ok { OnOk result ((clashes self.old (Setting.Server name.now server) ≡ false) × (self.new ≡ with_setting self.old (Setting.Server name.now server))) }
        ensures err { IfErr result (λ error. error ≡ LineError.Faulty → clashes self.old (Setting.Server name.now server) ≡ true) }
    {
        if MOST_SERVERS <= self.names.len() || self.names.has(name) {
            return Err(LineError::Faulty);
        }
        if self.push(alloc, name, server).is_err() {
            return Err(LineError::NoMemory);
        }
        Ok(())
    }

    fn push(&mut self, alloc: Global, name: &Name, server: ServerSet) -> Result<(), AllocError>
        requires within { IsTrue (is_within server) }
        requires few { length self.old.names < 64 }
        ensures { OnOk result (self.new ≡ with_setting self.old (Setting.Server name.now server)) }
    {
        self.servers.reserve(1)?;
        self.names.push(alloc, name)?;
        self.servers.push_reserved(server);
        Ok(())
    }
}

fn is_step(kind: &Option<Line>) -> bool
    ensures { result ≡ is_step_line kind.now }
{
    matches!(kind, Some(Line::Step(_)))
}
