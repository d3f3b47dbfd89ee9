//! What a counted writer leaves in a buffer: no clause says that it flushes.

use meson_rewrite::{Counted, Output};
use std::io::BufWriter;

#[test]
fn nothing_stays_in_a_buffer(rt: HostRuntime) {
    let alloc = rt.alloc();
    let writer = BufWriter::new(alloc, Vec::new(alloc)).expect(&rt, "memory");
    let mut out = Counted::new(writer);
    assert!(rt; out.tell(b"one, ").is_ok());
    assert!(rt; out.tell_line(alloc, &"two").is_ok());
    let (written, kept) = out.take().into_parts();
    assert_eq!(rt; written.as_slice(), b"one, two\n".as_slice());
    assert!(rt; kept.is_empty());
}
