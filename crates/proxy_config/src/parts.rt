//! The parts of a configuration.

use base_lists::Items;

/// A text, as its bytes.
pub type Text = Items<u8>;

/// A configuration.
#[derive(Debug, Drop)]
pub struct Config {
    /// The address where clients connect.
    pub bind: Bind,
    /// The servers, 1 to 64, in the file's order.
    pub servers: Items<Server>,
    /// The number of further tries for a request after a failed connection.
    pub retries: u32,
    /// `option redispatch`.
    pub redispatch: bool,
    /// `option abortonclose`: a client's end of input while it waits is an abort.
    pub abortonclose: bool,
    /// The longest stay in a queue, in milliseconds; never 0, and below 2^57 (HAProxy's `timeout
    /// queue`, or `timeout connect` where that isn't set).
    pub queue_timeout: Option<u64>,
    /// The longest wait for a connection to a server, in milliseconds; never 0 (`timeout connect`).
    pub connect_timeout: Option<u64>,
    /// The longest time in which a client neither sends nor takes a byte, in milliseconds; never 0 (`timeout client`).
    pub client_timeout: Option<u64>,
    /// The same of a server (`timeout server`).
    pub server_timeout: Option<u64>,
    /// The ACLs, in the order of their first lines.
    pub acls: Items<Acl>,
    /// The `http-request` rules in the file's order.
    pub rules: Items<Rule>,
    /// The `use-server` rules in the file's order.
    pub pins: Items<Pin>,
}

/// An address to listen at.
#[derive(Clone, Copy, Debug, PartialEq, Eq)]
pub struct Bind {
    /// An IPv4 address; `None` for all addresses of this machine.
    pub ip: Option<[u8; 4]>,
    pub port: u16,
}

/// An address to connect to.
#[derive(Debug, Drop)]
pub struct Address {
    pub host: Host,
    pub port: u16,
}

#[derive(Debug, Drop)]
pub enum Host {
    Ip([u8; 4]),
    /// A host name, which is looked up while the proxy runs.
    Name(Text),
}

#[derive(Debug, Drop)]
pub struct Server {
    pub name: Text,
    pub address: Address,
    /// The most requests at once; 0 is no limit.
    pub maxconn: u32,
    /// The most requests in the server's own queue; 0 is no limit.
    pub maxqueue: u32,
    /// At most 256. A server of weight 0 takes no part in balancing.
    pub weight: u32,
    /// The checks, where the line has `check`.
    pub check: Option<Checks>,
}

/// The health checks of a server.
#[derive(Clone, Copy, Debug, PartialEq, Eq)]
pub struct Checks {
    /// Milliseconds from one check to the next; never 0.
    pub inter: u64,
    /// The number of successes in a row that bring a server up; never 0.
    pub rise: u32,
    /// The number of failures in a row that take it down; never 0.
    pub fall: u32,
}

/// An ACL holds where one of its tests does.
#[derive(Debug, Drop)]
pub struct Acl {
    pub name: Text,
    pub tests: Items<Test>,
}

/// A test holds where one of its values fits its subject; where that is a field, one of the field's values.
#[derive(Debug, Drop)]
pub struct Test {
    pub subject: Subject,
    /// ASCII letters match in either case.
    pub ignore_case: bool,
    /// The values, one or more.
    pub values: Items<Text>,
}

/// The subject of a test.
#[derive(Debug, Drop)]
pub enum Subject {
    /// The path equals the value.
    Path,
    /// The path begins with the value.
    PathBegin,
    /// The path ends with the value.
    PathEnd,
    /// The method equals the value.
    Method,
    /// A value of the field with this name equals the value.
    Header(Text),
}

/// A condition holds where each term of one of the alternatives does.
#[derive(Debug, Drop)]
pub struct Condition {
    /// The alternatives, one or more, each of one or more terms.
    pub alternatives: Items<Items<Term>>,
}

/// A term holds where its operand does, or with a `!` where it doesn't.
#[derive(Debug, Drop)]
pub struct Term {
    pub negated: bool,
    pub operand: Operand,
}

#[derive(Debug, Drop)]
pub enum Operand {
    /// The index of one of the configuration's ACLs.
    Acl(usize),
    Test(Test),
}

/// The guard of a rule: when it applies.
#[derive(Debug, Drop)]
pub enum Guard {
    If(Condition),
    Unless(Condition),
}

/// An `http-request` rule.
#[derive(Debug, Drop)]
pub struct Rule {
    pub action: Action,
    pub value: Expression,
    /// `None` where the rule always applies.
    pub guard: Option<Guard>,
}

#[derive(Clone, Copy, Debug, PartialEq, Eq)]
pub enum Action {
    SetPriorityClass,
    SetPriorityOffset,
}

#[derive(Debug, Drop)]
pub enum Expression {
    Int(i64),
    /// The last of the values of the field with this name, as a number.
    HeaderValue(Text),
}

/// A `use-server` rule.
#[derive(Debug, Drop)]
pub struct Pin {
    /// The index of one of the configuration's servers.
    pub server: usize,
    pub guard: Guard,
}
