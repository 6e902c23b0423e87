// A request: who asks, under which stamp, for what work.
ghost use Rattle.std.specs.Prelude.{IsTrue};
ghost use Rattle.wire.specs.Ranges.{in_range};

use crate::fault::ReadFault;

#[derive(Clone, Copy, PartialEq, Eq, Debug)]
pub struct Request {
    pub(crate) client: u16,
    pub(crate) stamp: u32,
    pub(crate) work: u64,
    ghost valid: { IsTrue (in_range client stamp work) },
}

impl Request {
    ghost use Rattle.std.specs.Prelude.{◌≡◌};
    ghost use Rattle.std.specs.Option.{ok_or};
    ghost use Rattle.wire.specs.declared.fault.ReadFault.TheVariants.{Setting};
    ghost use Rattle.wire.specs.Requests.{request, blank};

    // A client numbered 0 is refused.
    pub fn new(client: u16, stamp: u32, work: u64) -> Result<Request, ReadFault>
        ensures { result ≡ ok_or (request client stamp work) Setting }
    {
        if client == 0 {
            return Err(ReadFault::Setting);
        }
        Ok(Request {
            client,
            stamp,
            work,
        })
    }

    // What fills an empty place: no rule reads it.
    pub fn blank() -> Request
        ensures { result ≡ blank }
    {
        Request {
            client: 1,
            stamp: 0,
            work: 0,
        }
    }

    pub fn client(&self) -> u16
        ensures { result ≡ self.now.client }
    {
        self.client
    }

    pub fn stamp(&self) -> u32
        ensures { result ≡ self.now.stamp }
    {
        self.stamp
    }

    pub fn work(&self) -> u64
        ensures { result ≡ self.now.work }
    {
        self.work
    }
}
