// Calls of units and sinks, for tests.
use pta_base::{Sink, Units};

/// Whether a read of four bytes from a place on gives these.
pub fn reads<U: Units>(units: &mut U, name: &str, at: u64, wanted: &[u8]) -> bool {
    let mut buf = [0u8; 4];
    match units.read(name, at, &mut buf) {
        Ok(count) => &buf[..count] == wanted,
        Err(_) => false,
    }
}

/// Whether a read fails.
pub fn is_failed<U: Units>(units: &mut U, name: &str, at: u64) -> bool {
    let mut buf = [0u8; 4];
    units.read(name, at, &mut buf).is_err()
}

/// How many bytes of a piece a sink takes: 0 where it fails, or where the piece is empty.
pub fn taken<S: Sink>(sink: &mut S, piece: &[u8]) -> usize {
    if piece.is_empty() {
        return 0;
    }
    match sink.write(piece) {
        Ok(count) => count,
        Err(_) => 0,
    }
}
