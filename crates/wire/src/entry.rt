// An entry of a replica's log: a request and the view in which it was carried out.
use crate::request::Request;

#[derive(Clone, Copy, PartialEq, Eq, Debug)]
pub struct LogEntry {
    pub view: u32,
    pub request: Request,
}
