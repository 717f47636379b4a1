ghost use Rattle.std.specs.Prelude.{◌≢◌, ◌++◌, ◌∷◌, ℕ, List, []};
ghost use Rattle.exchange_machine.specs.Histories.{ExchangeHistory, nothing_yet};
ghost use Rattle.exchange_machine.specs.Stages.{IsUnsent};
ghost use Rattle.exchange_machine.specs.Wholes.{Whole, EndsClean};
ghost use Rattle.exchange_events.specs.Chains.{IsNext};
ghost use Rattle.exchange_events.specs.Steps.{IsAtItsStage, history_after};
ghost use Rattle.exchange_events.specs.declared.event.Event as events;
ghost use Rattle.exchange_events.specs.declared.exchange.Exchange as exchanges;
ghost use Rattle.exchange_events.specs.declared.exchange.Outcome as outcomes;
ghost use Rattle.exchange_machine.specs.declared.dialing.Dialing as dialing;
ghost use Rattle.exchange_laws.specs.Connections.{Connection, bytes_in, bytes_out};
ghost use Rattle.std.specs.List.{AllByRecursion};
ghost use Rattle.exchange_machine.specs.Wholes.{IsWhole};
ghost use Rattle.exchange_laws.specs.Orders.{AnsweredInOrder, IsOpenToClient};
ghost use Rattle.exchange_seated.specs.Connections.{IsOpenToServer, SentInOrder};
ghost use Rattle.exchange_laws.specs.Readings.{AreAnsweredSo, AreReadSo, AreSentSo, IsNamedIn};
ghost use Rattle.exchange_laws.specs.ServerConnections.{ServerConnection, bytes_sent, bytes_come};

/// A client's connection goes on by the calls of `exchange_events`: it begins with a new exchange,
/// goes on by its steps, and by the next exchange where its client asks again.
pub fn what_goes_on()
    ensures begins { (x : exchanges.Exchange) → IsAtItsStage x nothing_yet → Connection [] x nothing_yet [] [] }
    ensures steps { (before : List Whole) (x y : exchanges.Exchange) (h : ExchangeHistory) (input output : List ℕ) (event : events.Event) (used : ℕ)
        (outcome : outcomes.Outcome) → Connection before x h input output → IsAtItsStage y (history_after x event used outcome h)
        → Connection before y (history_after x event used outcome h) (input ++ bytes_in event used) (output ++ bytes_out x event) }
    ensures asks_again { (before : List Whole) (x y : exchanges.Exchange) (h : ExchangeHistory) (input output : List ℕ) → Connection before x h input output
        → (next : IsNext h y) → Connection (before ++ next.whole ∷ []) y next.begins.now input output }
{}

/// The main theorem: a client's connection gets the answers to its requests one after another, each
/// whole before the next begins, in order, none left out and none twice, and a front of one text
/// for the request that is served. The bytes from the client are those requests, and then those of
/// the one that is served.
pub fn what_a_client_got()
    ensures { (before : List Whole) (x : exchanges.Exchange) (h : ExchangeHistory) (input output : List ℕ) → Connection before x h input output
        → AnsweredInOrder before h input output }
{}

/// A reader by the grammar finds these requests and these answers, and by
/// `exchange_laws::one_reading` and `one_answering` no others, whatever follows.
pub fn what_is_read()
    ensures { (ws : List Whole) → AllByRecursion IsWhole ws → AllByRecursion IsOpenToClient ws → AreReadSo ws }
{}

/// A server's connection goes on by the same calls: an exchange that has sent nothing yet has a new
/// one; the connection goes on by each step that doesn't give it up; and where that exchange ends
/// clean, another one that has sent nothing yet may own it. An exchange that waits for a connection
/// has sent nothing yet, nor has one that has just given a connection up.
pub fn what_goes_on_to_a_server()
    ensures opens { (x : exchanges.Exchange) (h : ExchangeHistory) → IsAtItsStage x h → IsUnsent h → ServerConnection [] x h [] [] }
    ensures steps { (before : List Whole) (x y : exchanges.Exchange) (h : ExchangeHistory) (sent came : List ℕ) (event : events.Event) (used : ℕ)
        (outcome : outcomes.Outcome) → ServerConnection before x h sent came → outcome ≢ outcomes.Outcome.Retries → IsAtItsStage y (history_after x event used outcome h)
        → ServerConnection before y (history_after x event used outcome h) (sent ++ bytes_sent x event) (came ++ bytes_come event used) }
    ensures handed_on { (before : List Whole) (x y : exchanges.Exchange) (h next : ExchangeHistory) (sent came out : List ℕ)
        → ServerConnection before x h sent came → (clean : EndsClean h out) → IsAtItsStage y next → IsUnsent next
        → ServerConnection (before ++ clean.whole ∷ []) y next sent came }
    ensures dials { (d : dialing.Dialing) (h : ExchangeHistory) → IsAtItsStage (exchanges.Exchange.Dialing d) h → IsUnsent h }
    ensures given_up { (x : exchanges.Exchange) (event : events.Event) (used : ℕ) (h : ExchangeHistory) → IsUnsent (history_after x event used outcomes.Outcome.Retries h) }
{}

/// The main theorem: a server's connection is sent the forwarded texts of the requests that owned
/// it one after another, each whole before the next begins, none left out and none twice, and a
/// front of one more. The bytes from the server are their answers, each whole, and then those for
/// the last one.
pub fn what_a_server_got()
    ensures { (before : List Whole) (x : exchanges.Exchange) (h : ExchangeHistory) (sent came : List ℕ) → ServerConnection before x h sent came
        → SentInOrder before h sent came }
{}

/// A reader by the grammar finds these requests in what a server was sent, and no byte more; by
/// `exchange_laws::one_reading` it finds no others, whatever follows. So no request is taken for
/// a part of another.
pub fn what_a_server_reads()
    ensures { (ws : List Whole) → AllByRecursion IsWhole ws → AllByRecursion IsNamedIn ws → AreSentSo ws }
{}

/// The same holds for their answers in what came from the server, by the requests' methods and
/// `one_answering`. So no answer belongs to another request.
pub fn what_a_server_answers()
    ensures { (ws : List Whole) → AllByRecursion IsWhole ws → AllByRecursion IsOpenToServer ws → AreAnsweredSo ws }
{}
