use crate::persistence::Persistence;
use std::net::IpAddr;

/// The fields that a proxy adds to the head of a request that it hands on.
#[derive(Clone, Copy, Debug, PartialEq, Eq)]
pub struct Additions {
    /// What the server is told of its connection.
    pub asks: Persistence,
    /// The client's address, where the server is told it: a field `X-Forwarded-For` after those of
    /// the client (HAProxy's `option forwardfor`).
    pub client: Option<IpAddr>,
}
