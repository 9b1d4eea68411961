//! Plain HTTP/1.1: the exchange of a client, and what a host answers.
#![tactic(auto)]

mod begun;
mod borrowed_request;
mod demand;
mod exchange;
mod fault;
mod fields;
mod head;
mod laws;
mod lengths;
mod path;
mod refusals;
mod request;
mod response;
mod status;

pub use begun::Begun;
pub use borrowed_request::{BorrowedRequest, borrow_request};
pub use demand::{Demand, demand_in, demand_of};
pub use exchange::{ANSWER_PIECE, HTTP_PORT, ask_wire};
pub use fault::ExchangeFault;
pub use head::{FIELD_LIMIT, HEAD_LIMIT, find_head_end};
pub use laws::{
    files_are_read, hosts_are_folders, numbers_are, one_answer, one_demand, one_outcome,
};
pub use path::name_in_path;
pub use refusals::Refusal;
pub use request::{Asked, RequestFault, read_request};
pub use status::{
    STATUS_BAD_REQUEST, STATUS_FIELDS_TOO_LARGE, STATUS_METHOD_NOT_ALLOWED, STATUS_NOT_FOUND,
    STATUS_OK,
};
