//! The journal, and the words by which a module is called.

use super::*;
use std::test::Fail;
use upd_text::Name;

fn module(payload: u8) -> Option<Call> {
    Some(Call::Module {
        payload,
        kind: Name::read(b"single-file").ok()?,
        state: ModState::Cleanup,
    })
}

#[test]
fn events_are_kept_in_order(rt: HostRuntime) -> Result<(), Fail> {
    let mut events = EventList::with_room(rt.alloc(), 2)?;
    assert!(rt; events.is_empty());
    let call = module(0).ok_or("a name")?;
    assert_eq!(rt; events.push(Event::Start(call.twin())), Ok(()));
    assert_eq!(rt; events.push(Event::End(Answer::Exit(3).twin())), Ok(()));
    assert_eq!(rt; events.room(), 0);
    assert_eq!(rt; events.push(Event::Loss), Ok(()));
    assert_eq!(rt; events.len(), 3);
    assert_eq!(rt; events.as_slice().len(), 3);
    assert!(rt; matches!(events.at(0), Event::Start(Call::Module { payload: 0, .. })));
    assert!(rt; matches!(events.at(1), Event::End(Answer::Exit(3))));
    assert!(rt; matches!(events.at(2), Event::Loss));
    events.clear();
    assert!(rt; events.is_empty());
    assert_eq!(rt; events.room(), 3);
    Ok(())
}

#[test]
fn a_word_is_read_whole(rt: HostRuntime) -> Result<(), Fail> {
    let rollback = ModuleWord::State(ModState::ArtifactRollback);
    assert_eq!(rt; ModuleWord::read(b"ArtifactRollback"), Some(rollback));
    let asked = ModuleWord::Ask(Query::NeedsArtifactReboot);
    assert_eq!(rt; ModuleWord::read(b"NeedsArtifactReboot"), Some(asked));
    for text in [
        b"".as_slice(),
        b"ArtifactRoll",
        b"ArtifactRollbacks",
        b"download",
    ] {
        assert_eq!(rt; ModuleWord::read(text), None);
    }
    Ok(())
}
