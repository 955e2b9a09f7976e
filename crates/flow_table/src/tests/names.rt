use crate::{Outcome, Reboot, State};

#[test]
fn a_name_is_read_whole(rt: HostRuntime) {
    assert_eq!(rt; State::read(b"RollbackReboot"), Some(State::RollbackReboot));
    assert_eq!(rt; Outcome::read(b"RolledBack"), Some(Outcome::RolledBack));
    assert_eq!(rt; Reboot::read(b"Automatic"), Some(Reboot::Automatic));
    for text in [
        b"".as_slice(),
        b"Roll",
        b"Rollbacks",
        b"rollback",
        b"Rollback ",
    ] {
        assert_eq!(rt; State::read(text), None);
        assert_eq!(rt; Outcome::read(text), None);
        assert_eq!(rt; Reboot::read(text), None);
    }
    assert_eq!(rt; State::read(b"No"), None);
}
