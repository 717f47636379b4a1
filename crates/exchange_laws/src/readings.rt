ghost use Rattle.std.specs.Prelude.{◌≡◌, ◌++◌, ℕ, List, Some, Bool, true};
ghost use Rattle.std.specs.List.{flat_map, AllByRecursion};
ghost use Rattle.httparse.specs.Grammar.{RequestHead, ResponseHead};
ghost use Rattle.base_lists.specs.Fronts.{AreComparable};
ghost use Rattle.http_bodies.specs.declared.framing.Framing as framings;
ghost use Rattle.http_texts.specs.Framings.{request_framing};
ghost use Rattle.http_texts.specs.Heads.{IsRequest};
ghost use Rattle.http_texts.specs.Messages.{IsFinal, IsForwarded, IsAnswered};
ghost use Rattle.http_texts.specs.Persistences.{is_delimited};
ghost use Rattle.http_texts.specs.Replies.{leave_text};
ghost use Rattle.http_texts.specs.Texts.{framed_for};
ghost use Rattle.http_texts.specs.declared.additions.Additions as additions;
ghost use Rattle.http_texts.specs.declared.persistence.Persistence as persistences;
ghost use Rattle.http_texts.specs.declared.plans.Plan as plans;
ghost use Rattle.req_view.specs.Answer.{answer_of};
ghost use Rattle.req_view.specs.Request.{Request, request_of};
ghost use Rattle.exchange_laws.specs.Alike.{AnswersAlike, IsAddress, IsNamed, ReadsAlike};
ghost use Rattle.exchange_laws.specs.Found.{FindsAnswer, FindsRequest};
ghost use Rattle.exchange_laws.specs.Messages.{Message, IsMessage, print_message};
ghost use Rattle.exchange_laws.specs.Replies.{Reply, AreReplies, print_reply};

use std::net::IpAddr;

/// A sequence of requests is read in one way only: no byte of one belongs to another.
pub fn one_reading()
    ensures { (some others : List Message) (rest behind : List ℕ) → AllByRecursion IsMessage some → AllByRecursion IsMessage others
        → flat_map print_message some ++ rest ≡ flat_map print_message others ++ behind → AreComparable some others }
{}

/// The same for answers, where the reader knows the requests.
pub fn one_answering()
    ensures { (methods : List (List ℕ)) (some others : List Reply) (rest behind : List ℕ) → AreReplies methods some → AreReplies methods others
        → flat_map print_reply some ++ rest ≡ flat_map print_reply others ++ behind → (some ≡ others) × (rest ≡ behind) }
{}

/// Each address meets the premise of the laws below.
pub fn what_an_address_keeps(address: IpAddr)
    ensures { IsAddress address }
{
    match address {
        IpAddr::V4(address) => {
            let _octets = address.octets();
        }
        IpAddr::V6(address) => {
            let _segments = address.segments();
        }
    }
}

/// A head that is handed on is read by its server as one head, which asks for the same and has the
/// framing of the client's.
pub fn a_server_reads_alike()
    ensures { (adds : additions.Additions) (h : RequestHead) (framing : framings.Framing) → IsNamed adds.client → IsRequest h
        → request_framing (request_of h) ≡ Some framing → ReadsAlike adds (request_of h) framing }
{}

/// The same for an answer's head and its client, where the answer's end is marked.
pub fn a_client_reads_alike()
    ensures { (says : persistences.Persistence) (framed : Bool) (method : List ℕ) (h : ResponseHead) (plan : plans.Plan) → IsFinal method h plan
        → is_delimited framed plan.body ≡ true → AnswersAlike says framed method (answer_of h) plan }
{}

/// A request that was handed on whole is one request, with the body that it was sent with, and no
/// byte more. By `one_reading` it is read in no other way.
pub fn a_server_finds_the_request()
    ensures { (adds : additions.Additions) (h : RequestHead) (used text : List ℕ) → IsNamed adds.client → IsRequest h
        → (sent : IsForwarded adds (request_of h) used text) → FindsRequest adds.client (request_of h) sent.body text }
{}

/// The same for an answer, with the `100` and the interim heads, where its end is marked. By
/// `one_answering` it is read in no other way.
pub fn a_client_finds_the_answer()
    ensures { (says : persistences.Persistence) (r : Request) (used text : List ℕ)
        → (told : IsAnswered says r.method (framed_for r.version) used text) → is_delimited (framed_for r.version) told.plan.body ≡ true
        → FindsAnswer r.method (answer_of told.head) told.plan told.sent_on (leave_text r ++ text) }
{}
