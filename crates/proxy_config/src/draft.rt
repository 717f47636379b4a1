//! The meaning of the lines that were read so far.

ghost use Rattle.std.specs.Prelude.{◌≡◌, ◌∷◌, ◌++◌, [], length, Result, Ok};
ghost use Rattle.std.specs.List.{list_any};
ghost use Rattle.proxy_words.specs.Text.{words as words_of, uncommented};
ghost use Rattle.proxy_config.specs.Outcomes.{Becomes, Gives, Leaves, Sees};
ghost use Rattle.proxy_config.specs.Draft as grammar;
ghost use Rattle.proxy_config.specs.File as file;

use crate::addresses::{address, bind};
use crate::faults::{FaultCause, LineError};
use crate::keywords::{Keyword, keyword_of, section_of};
use crate::parts::{Acl, Address, Bind, Rule, Server};
use crate::pieces::{end, word};
use crate::rules::{acl_line, rule_line, server_index};
use crate::settings::{Settings, settings_to_end};
use crate::values::{Shared, Values, shared_line};
use crate::wishes::{UnresolvedUseServer, wish_line};
use base_lists::Items;
use proxy_words::{Words, is_name, without_comment};
use std::alloc::Global;

/// The most servers.
const MOST_SERVERS: usize = 64;

/// The most lines of ACLs.
const MOST_ACL_LINES: usize = 256;

/// The most rules, of both kinds together.
const MOST_RULES: usize = 256;

#[derive(Clone, Copy)]
pub(crate) enum Section {
    /// Before the first section.
    Outside,
    Global,
    Defaults,
    Listen,
}

#[derive(Drop)]
pub(crate) struct Draft {
    pub section: Section,
    /// The line of the `listen`.
    pub listen: Option<u64>,
    pub defaults: Values,
    pub values: Values,
    pub bind: Option<Bind>,
    pub servers: Items<Server>,
    pub acls: Items<Acl>,
    pub acl_lines: usize,
    pub rules: Items<Rule>,
}

impl Draft {
    pub(crate) fn new(alloc: Global) -> Draft
        ensures { result ≡ grammar.start }
    {
        Draft {
            section: Section::Outside,
            listen: None,
            defaults: Values::built_in(),
            values: Values::built_in(),
            bind: None,
            servers: Items::new(alloc),
            acls: Items::new(alloc),
            acl_lines: 0,
            rules: Items::new(alloc),
        }
    }

    /// Takes a line, by its number and whether the file becomes too long in it, after this number
    /// of pins. The pin of a `use-server` line is returned as its wish. An error changes nothing.
    #[tactic(auto, unfolding(crate::specs::Draft::step))]
    pub(crate) fn step(
        &mut self,
        alloc: Global,
        pins: usize,
        too_long: bool,
        number: u64,
        line: &[u8],
    ) -> Result<Option<UnresolvedUseServer>, LineError>
        ensures { Leaves result self.old self.new
            (grammar.step pins too_long self.old number line.now) }
    {
        let text = without_comment(line);
        let ignored = is_ignored(self.section, Words::new(text));
        if !ignored && has_quoting(text) {
            return Err(FaultCause::Quoting.into());
        }
        if too_long {
            return Err(FaultCause::Limit.into());
        }
        if ignored {
            return Ok(None);
        }
        self.take_words(alloc, pins, number, Words::new(text))
    }

    /// Leaves the `listen` where a faulty line begins a section that the profile leaves out, or a
    /// second `listen`: what follows belongs to no section that counts.
    pub(crate) fn leave_behind(&mut self, line: &[u8])
        ensures { self.new ≡ file.after_fault self.old (file.keyword_in line.now) }
    {
        if self.is_ended_by(keyword_in(line)) {
            self.section = Section::Outside;
        }
    }

    fn is_ended_by(&self, keyword: Option<Keyword>) -> bool
        ensures { result ≡ file.ends_listen self.now keyword }
    {
        match keyword {
            Some(Keyword::Refused) => true,
            Some(Keyword::Listen) => self.listen.is_some(),
            _ => false,
        }
    }

    #[tactic(auto, unfolding(crate::specs::Draft::words_line))]
    fn take_words(
        &mut self,
        alloc: Global,
        pins: usize,
        number: u64,
        words: Words,
    ) -> Result<Option<UnresolvedUseServer>, LineError>
        ensures { Leaves result self.old self.new
            (grammar.words_line pins self.old number words.entry) }
    {
        let mut words = words;
        let Some(word) = words.next() else {
            return Ok(None);
        };
        match keyword_of(word) {
            None => Err(FaultCause::Keyword.into()),
            Some(keyword) => self.take_keyword(alloc, pins, number, keyword, words),
        }
    }

    fn take_keyword(
        &mut self,
        alloc: Global,
        pins: usize,
        number: u64,
        keyword: Keyword,
        words: Words,
    ) -> Result<Option<UnresolvedUseServer>, LineError>
        ensures { Leaves result self.old self.new
            (grammar.keyword_line pins self.old number keyword words.entry) }
    {
        match keyword {
            Keyword::Global => plain(self.global(words)),
            Keyword::Defaults => plain(self.defaults(words)),
            Keyword::Listen => plain(self.listen(number, words)),
            Keyword::Refused => Err(FaultCause::Section.into()),
            Keyword::Shared(shared) => plain(self.value(shared, words)),
            Keyword::Bind => plain(self.bind(words)),
            Keyword::Server => plain(self.server(alloc, words)),
            Keyword::Acl => plain(self.test(alloc, words)),
            Keyword::HttpRequest => plain(self.request(alloc, pins, words)),
            Keyword::UseServer => Ok(Some(self.use_server(alloc, pins, number, words)?)),
        }
    }

    #[tactic(auto, unfolding(crate::specs::Draft::global_line))]
    fn global(&mut self, words: Words) -> Result<(), LineError>
        ensures { Becomes result self.old self.new (grammar.global_line self.old words.entry) }
    {
        end(words)?;
        self.section = Section::Global;
        Ok(())
    }

    #[tactic(auto, unfolding(crate::specs::Draft::defaults_line))]
    fn defaults(&mut self, words: Words) -> Result<(), LineError>
        ensures { Becomes result self.old self.new (grammar.defaults_line self.old words.entry) }
    {
        optional_name(words)?;
        self.section = Section::Defaults;
        self.defaults = Values::built_in();
        Ok(())
    }

    #[tactic(auto, unfolding(crate::specs::Draft::listen_line))]
    fn listen(&mut self, number: u64, words: Words) -> Result<(), LineError>
        ensures { Becomes result self.old self.new (grammar.listen_line self.old number words.entry) }
    {
        if self.listen.is_some() {
            return Err(FaultCause::Section.into());
        }
        let (name, words) = word(words)?;
        if !is_name(name) {
            return Err(FaultCause::Name.into());
        }
        end(words)?;
        self.section = Section::Listen;
        self.listen = Some(number);
        self.values = self.defaults;
        Ok(())
    }

    #[tactic(auto, unfolding(crate::specs::Draft::value_line))]
    fn value(&mut self, shared: Shared, words: Words) -> Result<(), LineError>
        ensures { Becomes result self.old self.new (grammar.value_line self.old shared words.entry) }
    {
        match self.section {
            Section::Outside | Section::Global => Err(FaultCause::Place.into()),
            Section::Defaults => {
                self.defaults = shared_line(shared, self.defaults, words)?;
                Ok(())
            }
            Section::Listen => {
                self.values = shared_line(shared, self.values, words)?;
                Ok(())
            }
        }
    }

    #[tactic(auto, unfolding(crate::specs::Draft::bind_line))]
    fn bind(&mut self, words: Words) -> Result<(), LineError>
        ensures { Becomes result self.old self.new (grammar.bind_line self.old words.entry) }
    {
        if !in_listen(self.section) {
            return Err(FaultCause::Place.into());
        }
        if self.bind.is_some() {
            return Err(FaultCause::Twice.into());
        }
        let (word, words) = word(words)?;
        let bind = bind(word).ok_or(FaultCause::Address)?;
        end(words)?;
        self.bind = Some(bind);
        Ok(())
    }

    #[tactic(auto, unfolding(crate::specs::Draft::server_line))]
    fn server(&mut self, alloc: Global, words: Words) -> Result<(), LineError>
        ensures { Becomes result self.old self.new (grammar.server_line self.old words.entry) }
    {
        if !in_listen(self.section) {
            return Err(FaultCause::Place.into());
        }
        if self.servers.len() >= MOST_SERVERS {
            return Err(FaultCause::Limit.into());
        }
        let (name, words) = word(words)?;
        if !is_name(name) {
            return Err(FaultCause::Name.into());
        }
        if server_index(name, &self.servers).is_some() {
            return Err(FaultCause::Twice.into());
        }
        let (second, words) = word(words)?;
        let address = address(alloc, second)?;
        let settings = settings_to_end(Settings::built_in(), words)?;
        self.add_server(alloc, name, address, settings)
    }

    fn add_server(
        &mut self,
        alloc: Global,
        name: &[u8],
        address: Address,
        settings: Settings,
    ) -> Result<(), LineError>
        ensures { Becomes result self.old self.new
            (Ok (record self.old { servers = self.old.servers ++ grammar.server_of name.now address settings ∷ [] })) }
    {
        let name = Items::copied(alloc, name)?;
        self.servers.push(Server {
            name,
            address,
            maxconn: settings.maxconn,
            maxqueue: settings.maxqueue,
            weight: settings.weight,
            check: settings.checks(),
        })?;
        Ok(())
    }

    #[tactic(auto, unfolding(crate::specs::Draft::test_line))]
    fn test(&mut self, alloc: Global, words: Words) -> Result<(), LineError>
        ensures { Becomes result self.old self.new (grammar.test_line self.old words.entry) }
    {
        if !in_listen(self.section) {
            return Err(FaultCause::Place.into());
        }
        if self.acl_lines >= MOST_ACL_LINES {
            return Err(FaultCause::Limit.into());
        }
        acl_line(alloc, &mut self.acls, words)?;
        self.acl_lines += 1;
        Ok(())
    }

    #[tactic(auto, unfolding(crate::specs::Draft::request_line))]
    fn request(&mut self, alloc: Global, pins: usize, words: Words) -> Result<(), LineError>
        ensures { Becomes result self.old self.new (grammar.request_line pins self.old words.entry) }
    {
        if !in_listen(self.section) {
            return Err(FaultCause::Place.into());
        }
        self.has_room(pins)?;
        let rule = rule_line(alloc, &self.acls, words)?;
        self.rules.push(rule)?;
        Ok(())
    }

    #[tactic(auto, unfolding(crate::specs::Draft::use_line))]
    fn use_server(
        &self,
        alloc: Global,
        pins: usize,
        number: u64,
        words: Words,
    ) -> Result<UnresolvedUseServer, LineError>
        ensures { Gives (λ x. x) result (grammar.use_line pins self.now number words.entry) }
    {
        if !in_listen(self.section) {
            return Err(FaultCause::Place.into());
        }
        self.has_room(pins)?;
        wish_line(alloc, number, &self.acls, words)
    }

    fn has_room(&self, pins: usize) -> Result<(), FaultCause>
        ensures { Sees (λ x. x) result (grammar.has_rule_room pins self.now) }
    {
        let rules = self.rules.len();
        if rules >= MOST_RULES || pins >= MOST_RULES - rules {
            return Err(FaultCause::Limit);
        }
        Ok(())
    }
}

// A line that asks for no pin.
fn plain(done: Result<(), LineError>) -> Result<Option<UnresolvedUseServer>, LineError>
    ensures { (old : Draft) → (new : Draft) → (read : Result Draft FaultCause) → Becomes done old new read → Leaves result old new (grammar.plain read) }
{
    match done {
        Ok(()) => Ok(None),
        Err(error) => Err(error),
    }
}

fn keyword_in(line: &[u8]) -> Option<Keyword>
    ensures { result ≡ file.keyword_in line.now }
{
    first_keyword(Words::new(without_comment(line)))
}

fn first_keyword(mut words: Words) -> Option<Keyword>
    ensures { result ≡ file.first_keyword words.entry }
{
    match words.next() {
        None => None,
        Some(word) => keyword_of(word),
    }
}

fn in_listen(section: Section) -> bool
    ensures { result ≡ grammar.in_listen section }
{
    matches!(section, Section::Listen)
}

fn in_global(section: Section) -> bool
    ensures { result ≡ grammar.in_global section }
{
    matches!(section, Section::Global)
}

fn is_ignored(section: Section, mut words: Words) -> bool
    ensures { result ≡ grammar.is_ignored section words.entry }
{
    match words.next() {
        None => in_global(section),
        Some(word) => in_global(section) && section_of(word).is_none(),
    }
}

fn has_quoting(text: &[u8]) -> bool
    ensures { result ≡ list_any grammar.is_quoting text.now }
{
    text.iter().any(|byte| is_quoting(*byte))
}

fn is_quoting(byte: u8) -> bool
    ensures { result ≡ grammar.is_quoting byte }
{
    b"\"'\\".contains(&byte)
}

#[tactic(auto, unfolding(crate::specs::Draft::optional_name))]
fn optional_name(mut words: Words) -> Result<(), FaultCause>
    ensures { Sees (λ x. x) result (grammar.optional_name words.entry) }
{
    match words.next() {
        None => Ok(()),
        Some(name) => {
            if !is_name(name) {
                return Err(FaultCause::Name);
            }
            end(words)
        }
    }
}
