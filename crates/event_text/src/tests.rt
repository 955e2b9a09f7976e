//! The text of a journal.

use super::*;
use device_model::{Answer, Call, Event, EventList, ModState, Query};
use std::test::Fail;
use upd_text::{Name, Text32};

#[test]
fn each_event_has_its_line(rt: HostRuntime) -> Result<(), Fail> {
    let kind = Name::read(b"conf").ok().ok_or("a name")?;
    let events = [
        Event::Start(Call::Module {
            payload: 0,
            kind: kind.twin(),
            state: ModState::Download,
        }),
        Event::End(Answer::Exit(0)),
        Event::Start(Call::Ask {
            payload: 7,
            kind: kind.twin(),
            query: Query::SupportsRollback,
        }),
        Event::End(Answer::Reply(0, Text32::cut(b"Yes"))),
        Event::End(Answer::Reply(12, Text32::cut(b""))),
        Event::Start(Call::Script(kind)),
        Event::End(Answer::NotStarted),
        Event::Pause(60),
        Event::Start(Call::SystemReboot),
        Event::Loss,
    ];
    let mut journal = EventList::with_room(rt.alloc(), 10)?;
    for event in events {
        journal.push(event).ok().ok_or("there is room")?;
    }
    let wanted = b"module 0 Download\nexit 0\nask 7 SupportsRollback\nreply 0 596573\nreply 12 -\n\
run conf\nnot-started\npause 60\nreboot\nloss\n";
    let text = spelled(rt.alloc(), &journal)?;
    assert_eq!(rt; text.as_slice(), wanted.as_slice());
    Ok(())
}
