//! The sink in memory, by a table of puts.

use super::*;
use std::alloc::Global;
use std::test::Fail;
use upd_text::CallList;

/// Puts three texts into a sink with this room, of which the put number `failing` fails, and gives what was written and
/// which of the three went through.
fn three_puts(alloc: Global, room: u32, failing: u64) -> Result<(MemSink, [bool; 3]), Fail> {
    let mut list = CallList::new(alloc);
    list.push(failing)?;
    let mut sink = MemSink::new(alloc, room, list)?;
    let first = sink.put(b"abc").is_ok();
    let second = sink.put(b"").is_ok();
    let third = sink.put(b"de").is_ok();
    Ok((sink, [first, second, third]))
}

#[test]
fn puts_go_through_but_where_they_are_to_fail(rt: HostRuntime) -> Result<(), Fail> {
    let rows: [(u32, u64, &[u8], [bool; 3]); 6] = [
        (5, 9, b"abcde", [true, true, true]),
        (5, 0, b"de", [false, true, true]),
        (5, 1, b"abcde", [true, false, true]),
        (5, 2, b"abc", [true, true, false]),
        (4, 9, b"abc", [true, true, false]),
        (2, 9, b"de", [false, true, true]),
    ];
    for (room, failing, written, went) in rows {
        let (sink, done) = three_puts(rt.alloc(), room, failing)?;
        assert_eq!(rt; sink.written(), written);
        assert_eq!(rt; done, went);
    }
    Ok(())
}
