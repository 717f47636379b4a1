//! The first words of lines.

ghost use Rattle.std.specs.Prelude.{◌≡◌};
ghost use Rattle.proxy_config.specs.Keywords as grammar;

use crate::pieces::is;
use crate::values::Shared;

#[derive(Clone, Copy)]
pub(crate) enum Keyword {
    Global,
    Defaults,
    Listen,
    /// A section that the profile leaves out.
    Refused,
    Shared(Shared),
    Bind,
    Server,
    Acl,
    HttpRequest,
    UseServer,
}

pub(crate) fn keyword_of(word: &[u8]) -> Option<Keyword>
    ensures { result ≡ grammar.keyword_of word.now }
{
    section_of(word)
        .or(shared_of(word))
        .or(listen_keyword_of(word))
}

pub(crate) fn section_of(word: &[u8]) -> Option<Keyword>
    ensures { result ≡ grammar.section_of word.now }
{
    if is(word, "global") {
        Some(Keyword::Global)
    } else if is(word, "defaults") {
        Some(Keyword::Defaults)
    } else if is(word, "listen") {
        Some(Keyword::Listen)
    } else if is_refused(word) {
        Some(Keyword::Refused)
    } else {
        None
    }
}

fn is_refused(word: &[u8]) -> bool
    ensures { result ≡ grammar.is_refused word.now }
{
    is(word, "frontend")
        || is(word, "backend")
        || is(word, "peers")
        || is(word, "resolvers")
        || is(word, "userlist")
        || is(word, "cache")
        || is(word, "program")
}

fn shared_of(word: &[u8]) -> Option<Keyword>
    ensures { result ≡ grammar.shared_of word.now }
{
    if is(word, "mode") {
        Some(Keyword::Shared(Shared::Mode))
    } else if is(word, "balance") {
        Some(Keyword::Shared(Shared::Balance))
    } else if is(word, "retries") {
        Some(Keyword::Shared(Shared::Retries))
    } else if is(word, "option") {
        Some(Keyword::Shared(Shared::Option))
    } else if is(word, "timeout") {
        Some(Keyword::Shared(Shared::Timeout))
    } else if is(word, "log") || is(word, "description") {
        Some(Keyword::Shared(Shared::Note))
    } else {
        None
    }
}

fn listen_keyword_of(word: &[u8]) -> Option<Keyword>
    ensures { result ≡ grammar.listen_keyword_of word.now }
{
    if is(word, "bind") {
        Some(Keyword::Bind)
    } else if is(word, "server") {
        Some(Keyword::Server)
    } else if is(word, "acl") {
        Some(Keyword::Acl)
    } else if is(word, "http-request") {
        Some(Keyword::HttpRequest)
    } else if is(word, "use-server") {
        Some(Keyword::UseServer)
    } else {
        None
    }
}
