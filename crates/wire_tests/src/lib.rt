// Examples of the wire format.
#![tactic(auto)]

#[cfg(test)]
mod tests {
    use refusals::{Layer, Refusal};
    use std::process::Abort;
    use std::test::Fail;
    use wire::body::read_body;
    use wire::config::ClusterConfig;
    use wire::draft::{Content, Draft};
    use wire::entry::LogEntry;
    use wire::fault::ReadFault;
    use wire::message::Message;
    use wire::read::read;
    use wire::request::Request;

    // PREPARE of replica 0, view 0, number 1: client 1, stamp 1, buying 40 of piece 5
    const PREPARE: [u8; 27] = [
        1, 0, 0, 0, 0, 0, 1, 0, 0, 0, 1, 0, 14, 0, 1, 0, 0, 0, 1, 1, 5, 0, 0, 0, 0, 0, 40,
    ];

    // the PREPARE of replica 0 in view 0 that gives a request number 1
    fn first(request: Request) -> Draft<'static> {
        Draft {
            replica: 0,
            view: 0,
            content: Content::Prepare { number: 1, request },
        }
    }

    fn refused(rt: &impl Abort, message: Result<Message<'_>, ReadFault>, number: u8, place: usize) {
        assert_eq!(rt;
            message.err().map(Refusal::from),
            Some(Refusal {
                number,
                layer: Layer::Reader,
                place,
            })
        );
    }

    // the PREPARE with another byte
    fn with(at: usize, byte: u8) -> [u8; 27] {
        let mut bytes = PREPARE;
        if at < 27 {
            bytes[at] = byte;
        }
        bytes
    }

    #[test]
    fn a_prepare_is_its_27_bytes(rt: HostRuntime) -> Result<(), Fail> {
        let three = ClusterConfig::new(3)?;
        let request = Request::new(1, 1, 0x0105_0000_0000_0028)?;
        let mut out = [9u8; 30];
        assert_eq!(rt; first(request).write(three, &mut out)?, Some(27));
        assert_eq!(rt; &out[0..27], PREPARE.as_slice());
        assert_eq!(rt; &out[27..30], [9u8, 9, 9].as_slice());
        Ok(())
    }

    #[test]
    fn it_reads_back(rt: HostRuntime) -> Result<(), Fail> {
        let Message::Prepare(vote) = read(ClusterConfig::new(3)?, &PREPARE)? else {
            return Err(Fail::new("another kind"));
        };
        let request = vote.request();
        assert_eq!(rt; vote.number(), 1);
        assert_eq!(rt; request.client(), 1);
        assert_eq!(rt; request.stamp(), 1);
        assert_eq!(rt; request.work(), 0x0105_0000_0000_0028);
        Ok(())
    }

    #[test]
    fn damaged_bytes_are_refused(rt: HostRuntime) -> Result<(), Fail> {
        let three = ClusterConfig::new(3)?;
        refused(&rt, read(three, &PREPARE[0..26]), 1, 26);
        refused(&rt, read(three, &[]), 1, 0);
        refused(&rt, read(three, &with(0, 0)), 2, 0);
        refused(&rt, read(three, &with(0, 7)), 2, 0);
        refused(&rt, read(three, &with(1, 3)), 3, 1);
        refused(&rt, read(three, &with(6, 2)), 3, 6);
        refused(&rt, read(three, &with(10, 97)), 3, 7);
        refused(&rt, read(three, &with(12, 15)), 3, 11);
        refused(&rt, read(three, &with(14, 0)), 3, 13);
        assert!(rt; read(three, &with(10, 96)).is_ok());
        assert!(rt; read(ClusterConfig::new(5)?, &with(1, 3)).is_ok());
        Ok(())
    }

    #[test]
    fn a_short_buffer_stays(rt: HostRuntime) -> Result<(), Fail> {
        let three = ClusterConfig::new(3)?;
        let request = Request::new(1, 1, 7)?;
        let mut out = [9u8; 26];
        assert_eq!(rt; first(request).write(three, &mut out)?, None);
        assert_eq!(rt; &out, &[9u8; 26]);
        Ok(())
    }

    #[test]
    fn the_longest_message_is_written_and_read(rt: HostRuntime) -> Result<(), Fail> {
        let five = ClusterConfig::new(5)?;
        let request = Request::new(65535, 7, 8)?;
        let entries = [LogEntry {
            view: 999_998,
            request,
        }; 96];
        let mut out = [0u8; 2311];
        let draft = Draft {
            replica: 4,
            view: 999_999,
            content: Content::Report { entries: &entries },
        };
        assert_eq!(rt; draft.write(five, &mut out)?, Some(2311));
        let Message::Report(report) = read(five, &out)? else {
            return Err(Fail::new("another kind"));
        };
        assert_eq!(rt; report.len(), 96);
        let Some(entry) = report.entry(95) else {
            return Err(Fail::new("no last entry"));
        };
        assert_eq!(rt; entry.view, 999_998);
        assert_eq!(rt; entry.request.client(), 65535);
        assert!(rt; report.entry(96).is_none());
        Ok(())
    }

    #[test]
    fn a_body_is_a_part_of_its_message(rt: HostRuntime) -> Result<(), Fail> {
        let three = ClusterConfig::new(3)?;
        let Some(body) = read_body(three, &PREPARE, 0)? else {
            return Err(Fail::new("no body"));
        };
        assert_eq!(rt; body.offset, 13);
        assert_eq!(rt; body.bytes, &PREPARE[13..27]);
        assert!(rt; read_body(three, &PREPARE, 1)?.is_none());
        Ok(())
    }

    #[test]
    fn settings_are_checked(rt: HostRuntime) {
        assert!(rt; ClusterConfig::new(4).is_err());
        assert!(rt; Request::new(0, 1, 1).is_err());
    }
}
