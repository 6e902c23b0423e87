// What the readers of words promise at each type, and what they read.
ghost use Rattle.std.specs.Prelude.{◌≡◌};
ghost use Rattle.scenario.specs.Numbers.{numeral, up_to};

use crate::words::{decimal, print};

fn decimal_u8(word: &[u8]) -> Option<u8>
    ensures { result ≡ up_to 255 (numeral 10 word.now) }
{
    decimal(word)
}

fn decimal_u16(word: &[u8]) -> Option<u16>
    ensures { result ≡ up_to 65535 (numeral 10 word.now) }
{
    decimal(word)
}

fn decimal_u32(word: &[u8]) -> Option<u32>
    ensures { result ≡ up_to 4294967295 (numeral 10 word.now) }
{
    decimal(word)
}

#[test]
fn each_type_has_its_largest_number(rt: HostRuntime) {
    assert_eq!(rt; decimal_u8(b"255"), Some(255));
    assert_eq!(rt; decimal_u8(b"256"), None);
    assert_eq!(rt; decimal_u16(b"0065535"), Some(65535));
    assert_eq!(rt; decimal_u16(b"65536"), None);
    assert_eq!(rt; decimal_u32(b"4294967295"), Some(4294967295));
    assert_eq!(rt; decimal_u32(b"4294967296"), None);
    assert_eq!(rt; decimal_u32(b"99999999999999999999"), None);
}

#[test]
fn bytes_are_printed_in_lower_case(rt: HostRuntime) {
    let mut out = String::new(rt.alloc());
    assert!(rt; print(&mut out, &[0, 10, 160, 255]).is_ok());
    assert_eq!(rt; out.as_str(), "000aa0ff");
}
