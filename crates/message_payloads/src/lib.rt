// The eleven requests: the tests of 48 and 45 of each, and its header and payload, put into a lent output.
// Specifications: those of message_put (what a put does), message_lent (the messages as they are lent) and
// message_verdict (the tests).
#![tactic(auto)]

pub mod connect_reply;
pub mod connect_request;
pub mod disconnect;
pub mod discovery;
pub mod request;
pub mod work;
