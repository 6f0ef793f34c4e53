//! Blanks, and bytes of one line.
ghost use Rattle.std.specs.Prelude.{◌≡◌, ◌≤◌, length};
ghost use Rattle.leda_base.specs.Bytes.{is_blank, trimmed, is_one_line};

/// Whether a byte is a blank: a space, a tab or a CR.
pub fn is_blank(byte: u8) -> bool
    ensures { result ≡ is_blank byte }
{
    byte == b' ' || byte == b'\t' || byte == b'\r'
}

/// The bytes without the blanks at their end.
pub fn trimmed(bytes: &[u8]) -> &[u8]
    ensures value { result.now ≡ trimmed bytes.now }
    ensures within { length result.now ≤ length bytes.now }
{
    let mut rest = bytes;
    while let [front @ .., last] = rest
        && is_blank(*last)
    {
        rest = front;
    }
    rest
}

/// Whether none of the bytes ends a line.
pub fn is_one_line(bytes: &[u8]) -> bool
    ensures { result ≡ is_one_line bytes.now }
{
    bytes.iter().all(|byte| *byte != b'\n')
}

#[cfg(test)]
mod tests {
    use super::*;

    #[test]
    fn blanks_at_the_end_are_left_out(rt: HostRuntime) {
        for (bytes, want) in [
            ("", ""),
            (" \t\r", ""),
            (" a b \r\t", " a b"),
            ("a\n ", "a\n"),
        ] {
            assert_eq!(rt; trimmed(bytes.as_bytes()), want.as_bytes(), "at {bytes}");
        }
        assert!(rt; !is_blank(b'\n'));
    }

    #[test]
    fn an_lf_ends_a_line(rt: HostRuntime) {
        assert!(rt; is_one_line(b"a\r\t"));
        assert!(rt; !is_one_line(b"a\nb"));
    }
}
