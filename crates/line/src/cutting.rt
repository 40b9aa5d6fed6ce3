//! Where bytes are cut.
ghost use Rattle.std.specs.Prelude.{◌≡◌, ◌≤◌, length};
ghost use Rattle.line.specs.Lines.{before_first};

/// How many bytes stand before the first byte `stop`: all of them where it is not there.
pub(crate) fn before_first(bytes: &[u8], stop: u8) -> usize
    ensures value { result ≡ before_first stop bytes.now }
    ensures within { result ≤ length bytes.now }
{
    bytes
        .iter()
        .position(|byte| *byte == stop)
        .unwrap_or(bytes.len())
}
