ghost use Rattle.std.specs.Prelude.{◌≡◌, codes};
ghost use Rattle.http_texts.specs.Persistences as persistences;

use crate::fields::is_of_this_connection;
use crate::persistence::Persistence;
use crate::plans::Plan;
use crate::roles::is_framed;
use http_bodies::Framing;
use req_view::{AnswerHead, Section, Version, View};

fn closes(section: &Section) -> bool
    ensures { result ≡ persistences.has_option (codes "close") section.now.fields }
{
    is_of_this_connection(section, b"close")
}

fn is_delimited(framed: bool, framing: Framing) -> bool
    ensures { result ≡ persistences.is_delimited framed framing }
{
    match framing {
        Framing::Empty | Framing::Length(_) => true,
        Framing::Chunked => framed,
        Framing::ToEnd => false,
    }
}

fn kept_by(version: Version, asked: bool) -> Persistence
    ensures { result ≡ persistences.kept_by version asked }
{
    match version {
        Version::Http11 => Persistence::Persist,
        Version::Http10 => {
            if asked {
                Persistence::KeepAlive
            } else {
                Persistence::Close
            }
        }
    }
}

fn wished(view: &View) -> Persistence
    ensures { result ≡ persistences.wished view.now }
{
    if closes(view.section()) {
        Persistence::Close
    } else {
        kept_by(
            view.version(),
            is_of_this_connection(view.section(), b"keep-alive"),
        )
    }
}

/// Returns what an answer says of its client's connection; `willing` says whether the proxy wants
/// to keep it. `O(n)` in Connection's values.
pub fn answer_says(willing: bool, view: &View, plan: Plan) -> Persistence
    ensures { result ≡ persistences.answer_says willing view.now plan }
{
    if willing && is_delimited(is_framed(view.version()), plan.body) {
        wished(view)
    } else {
        Persistence::Close
    }
}

/// Says whether the server keeps its connection open after this answer. `O(n)` in Connection's values.
pub fn is_kept_by_server(head: &AnswerHead, plan: Plan) -> bool
    ensures { result ≡ persistences.is_kept_by_server head.now plan }
{
    match head.version() {
        Version::Http10 => false,
        Version::Http11 => is_delimited(true, plan.body) && !closes(head.section()),
    }
}
