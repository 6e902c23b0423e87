// The ranges of a message's fields.
ghost use Rattle.std.specs.Prelude.{◌≡◌, ◌*◌, ◌+◌, length, ◌<◌, None, IfSome, nat_le, nat_lt};
ghost use Rattle.std.specs.List.{position_from};
ghost use Rattle.wire.specs.Configs.{replicas};
ghost use Rattle.wire.specs.Kinds.{numbered, last_number, last_view};
ghost use Rattle.wire.specs.Reading.{may_close};
ghost use Rattle.wire.specs.Writing.{field, late_entry, refused_at};

use crate::config::ClusterConfig;
use crate::entry::LogEntry;
use crate::fault::ReadFault;
use crate::kind::{LAST_NUMBER, LAST_VIEW, is_numbered};
use crate::mask::may_close;

pub(crate) fn check_head(config: ClusterConfig, replica: u8, view: u32) -> Result<(), ReadFault>
    ensures { result ≡ refused_at (field (nat_lt replica (replicas config)) 1 (field (nat_le view last_view) 2 None)) }
{
    if replica >= config.n() {
        return Err(ReadFault::Field(1));
    }
    if view > LAST_VIEW {
        return Err(ReadFault::Field(2));
    }
    Ok(())
}

pub(crate) fn check_number(number: u32) -> Result<(), ReadFault>
    ensures { result ≡ refused_at (field (numbered number) 7 None) }
{
    if !is_numbered(number) {
        return Err(ReadFault::Field(7));
    }
    Ok(())
}

pub(crate) fn check_mask(config: ClusterConfig, mask: u16) -> Result<(), ReadFault>
    ensures { result ≡ refused_at (field (may_close config mask) 13 None) }
{
    if !may_close(config, mask) {
        return Err(ReadFault::Field(13));
    }
    Ok(())
}

// The row of the first entry whose view is not below the report's.
fn first_late(view: u32, entries: &[LogEntry]) -> Option<usize>
    ensures row { result ≡ position_from (λ e. nat_le view e.view) 0 entries.now }
    ensures bound { IfSome result (λ row. row < length entries.now) }
{
    entries.iter().position(|entry| entry.view >= view)
}

// There are not too many entries, and the view of each is below the report's.
pub(crate) fn check_report(view: u32, entries: &[LogEntry]) -> Result<(), ReadFault>
    ensures { result ≡ refused_at (field (nat_le (length entries.now) last_number) 6 (late_entry view (7 + 6 * length entries.now) entries.now)) }
{
    if entries.len() > usize::from(LAST_NUMBER) {
        return Err(ReadFault::Field(6));
    }
    match first_late(view, entries) {
        Some(row) => Err(ReadFault::Field(7 + 6 * entries.len() + 18 * row)),
        None => Ok(()),
    }
}
