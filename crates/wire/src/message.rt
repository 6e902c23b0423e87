// A read message: one of the six kinds, with the parts of the input that it holds.
// The form is fixed: an enum whose cases hold all of a message, with its parts of the input. So replica and view stand in each case.
use crate::request::Request;

#[derive(Clone, Copy)]
pub enum Message<'a> {
    Prepare(Vote<'a>),
    Commit(Vote<'a>),
    Doubt(Doubt),
    Report(Report<'a>),
    Closing(Closing<'a>),
    Reply(Reply<'a>),
}

// A request under a number: what a primary prepares and a follower commits.
#[derive(Clone, Copy)]
pub struct Vote<'a> {
    pub(crate) replica: u8,
    pub(crate) view: u32,
    pub(crate) number: u32,
    pub(crate) request: Request,
    pub(crate) contents: &'a [u8],
    pub(crate) body: &'a [u8],
}

// The wish to leave a view.
#[derive(Clone, Copy)]
pub struct Doubt {
    pub(crate) replica: u8,
    pub(crate) view: u32,
}

// A replica's log. The entries stay in the input and are decoded when asked for.
#[derive(Clone, Copy)]
pub struct Report<'a> {
    pub(crate) replica: u8,
    pub(crate) view: u32,
    pub(crate) contents: &'a [u8],
    pub(crate) bodies: &'a [u8],
}

// The replicas whose reports the sender holds, as a mask.
#[derive(Clone, Copy)]
pub struct Closing<'a> {
    pub(crate) replica: u8,
    pub(crate) view: u32,
    pub(crate) mask: u16,
    pub(crate) contents: &'a [u8],
    pub(crate) body: &'a [u8],
}

// What a request gave that was carried out under a number.
#[derive(Clone, Copy)]
pub struct Reply<'a> {
    pub(crate) vote: Vote<'a>,
    pub(crate) outcome: u64,
}
