//! The settings of a server.

ghost use Rattle.std.specs.Prelude.{◌≡◌, codes};
ghost use Rattle.std.specs.Str.{bytes_eq};
ghost use Rattle.proxy_config.specs.Outcomes.{Sees};
ghost use Rattle.proxy_config.specs.Settings as grammar;

use crate::faults::FaultCause;
use crate::parts::Checks;
use crate::pieces::{is, number_from, number_in, time_from};
use proxy_words::{Words, number};

/// The settings of a `server` line, or their defaults.
#[derive(Clone, Copy)]
pub(crate) struct Settings {
    pub weight: u32,
    pub maxconn: u32,
    pub maxqueue: u32,
    pub check: bool,
    pub inter: u64,
    pub rise: u32,
    pub fall: u32,
}

#[derive(Clone, Copy)]
pub(crate) enum Setting {
    Weight,
    Maxconn,
    Maxqueue,
    Inter,
    Rise,
    Fall,
}

impl Settings {
    pub(crate) fn built_in() -> Settings
        ensures { result ≡ grammar.built_in }
    {
        Settings {
            weight: 1,
            maxconn: 0,
            maxqueue: 0,
            check: false,
            inter: 2000,
            rise: 2,
            fall: 3,
        }
    }

    pub(crate) fn checks(self) -> Option<Checks>
        ensures { result ≡ grammar.checks self }
    {
        if !self.check {
            return None;
        }
        Some(Checks {
            inter: self.inter,
            rise: self.rise,
            fall: self.fall,
        })
    }
}

/// Reads the settings to the end of a line.
pub(crate) fn settings_to_end(start: Settings, words: Words) -> Result<Settings, FaultCause>
    ensures { Sees (λ x. x) result (grammar.settings start words.entry) }
{
    let mut so_far = start;
    let mut words = words;
    'settings: while let Some(first) = words.next() {
        if is(first, "check") {
            so_far.check = true;
            continue;
        }
        let setting = setting_of(first).ok_or(FaultCause::Keyword)?;
        let value = words.next().ok_or(FaultCause::Words)?;
        so_far = with_setting(setting, value, so_far)?;
    }
    Ok(so_far)
}

fn setting_of(word: &[u8]) -> Option<Setting>
    ensures { result ≡ grammar.setting_of word.now }
{
    if is(word, "weight") {
        Some(Setting::Weight)
    } else if is(word, "maxconn") {
        Some(Setting::Maxconn)
    } else if is(word, "maxqueue") {
        Some(Setting::Maxqueue)
    } else if is(word, "inter") {
        Some(Setting::Inter)
    } else if is(word, "rise") {
        Some(Setting::Rise)
    } else if is(word, "fall") {
        Some(Setting::Fall)
    } else {
        None
    }
}

fn with_setting(setting: Setting, value: &[u8], settings: Settings) -> Result<Settings, FaultCause>
    ensures { Sees (λ x. x) result (grammar.set setting value.now settings) }
{
    let mut next = settings;
    match setting {
        Setting::Weight => next.weight = number_in(0, 256, value).ok_or(FaultCause::Number)?,
        Setting::Maxconn => next.maxconn = number(value).ok_or(FaultCause::Number)?,
        Setting::Maxqueue => next.maxqueue = number(value).ok_or(FaultCause::Number)?,
        Setting::Inter => next.inter = time_from(1, value).ok_or(FaultCause::Number)?,
        Setting::Rise => next.rise = number_from(1, value).ok_or(FaultCause::Number)?,
        Setting::Fall => next.fall = number_from(1, value).ok_or(FaultCause::Number)?,
    }
    Ok(next)
}
