//! Laws that nothing stands on: who reads by the grammar what was handed on finds what was sent;
//! requests one after another on a client's connection and on a server's; what a pass and a
//! connection mean in the log.
#![tactic(auto)]

mod laws;
mod passes;
mod readings;

pub use laws::{
    what_a_client_got, what_a_server_answers, what_a_server_got, what_a_server_reads, what_goes_on,
    what_goes_on_to_a_server, what_is_read,
};
pub use passes::{connections_are_true, passes_are_true};
pub use readings::{
    a_client_finds_the_answer, a_client_reads_alike, a_server_finds_the_request,
    a_server_reads_alike, one_answering, one_reading, what_an_address_keeps,
};
