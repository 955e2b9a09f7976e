use crate::{Action, AddFault, Place, ScriptList, ScriptName, Stage, due};
use std::alloc::Global;
use std::test::Fail;
use upd_text::Name;

fn script(text: &str) -> Option<ScriptName> {
    ScriptName::read(&Name::read(text.as_bytes()).ok()?)
}

fn place(text: &str) -> Option<Place> {
    Some(script(text)?.place())
}

#[test]
fn names_say_places(rt: HostRuntime) {
    let install = Place {
        stage: Stage::Install,
        action: Action::Enter,
    };
    assert_eq!(rt; place("ArtifactInstall_Enter_00"), Some(install));
    assert_eq!(rt; place("ArtifactInstall_Enter_99_x"), Some(install));
    let back = Place {
        stage: Stage::RollbackReboot,
        action: Action::Leave,
    };
    assert_eq!(rt; place("ArtifactRollbackReboot_Leave_10"), Some(back));
    for wrong in [
        "ArtifactInstall_Enter_0",
        "ArtifactInstall_Enter_000",
        "ArtifactInstall_Enter_00_",
        "ArtifactInstall_Enter_0a",
        "ArtifactInstall_Enter_00_a/b",
        "ArtifactInstall_enter_00",
        "Install_Enter_00",
        "ArtifactInstall_Enter00",
        "x",
    ] {
        assert_eq!(rt; place(wrong), None, "at {wrong}");
    }
}

#[test]
fn of_artifacts(rt: HostRuntime) {
    for (text, brought) in [
        ("Download_Enter_00", false),
        ("ArtifactInstall_Error_07", true),
        ("ArtifactReboot_Enter_07", true),
        ("ArtifactCommit_Leave_07_ok", true),
        ("ArtifactFailure_Leave_07", true),
    ] {
        let found = match script(text) {
            Some(script) => script.is_of_artifact() == brought,
            None => false,
        };
        assert!(rt; found, "at {text}");
    }
}

fn listed(alloc: Global, texts: &[&str]) -> Option<ScriptList> {
    let mut list = ScriptList::new(alloc);
    for text in texts {
        let script = script(text)?;
        if list.len() >= 64 || !list.is_last(script.name()) {
            return None;
        }
        list.push_last(script).ok()?;
    }
    Some(list)
}

#[test]
fn due_in_order(rt: HostRuntime) -> Result<(), Fail> {
    let texts = [
        "ArtifactInstall_Enter_01",
        "ArtifactInstall_Enter_01_b",
        "ArtifactInstall_Enter_02_a",
        "ArtifactInstall_Leave_00",
        "ArtifactReboot_Enter_00",
    ];
    let list = listed(rt.alloc(), &texts).ok_or("the names ascend")?;
    assert_eq!(rt; list.len(), 5);
    let mut found = 0;
    for name in due(
        &list,
        Place {
            stage: Stage::Install,
            action: Action::Enter,
        },
    ) {
        let here = found < 3 && name.name().bytes() == texts[found].as_bytes();
        assert!(rt; here);
        found += 1;
    }
    assert_eq!(rt; found, 3);
    assert!(rt; list.at(3).name().bytes() == texts[3].as_bytes());
    assert!(rt; listed(rt.alloc(), &[texts[1], texts[0]]).is_none());
    assert!(rt; listed(rt.alloc(), &[texts[1], texts[1]]).is_none());
    Ok(())
}

#[test]
fn scripts_are_added_in_order(rt: HostRuntime) -> Result<(), Fail> {
    let mut list = ScriptList::new(rt.alloc());
    let rows = [
        ("ArtifactInstall_Enter_05_b", Ok(())),
        ("ArtifactInstall_Enter_10", Ok(())),
        ("ArtifactInstall_Enter_05_a", Ok(())),
        ("ArtifactInstall_Enter_10", Err(AddFault::Doubled)),
        ("ArtifactInstall_Enter_05_b", Err(AddFault::Doubled)),
        ("ArtifactCommit_Leave_99", Ok(())),
    ];
    for (text, wanted) in &rows {
        let script = script(text).ok_or("no script")?;
        assert_eq!(rt; list.add(script), *wanted, "at {text}");
    }
    let order = [
        "ArtifactCommit_Leave_99",
        "ArtifactInstall_Enter_05_a",
        "ArtifactInstall_Enter_05_b",
        "ArtifactInstall_Enter_10",
    ];
    assert_eq!(rt; list.len(), 4);
    for (held, text) in list.as_slice().iter().zip(&order) {
        assert_eq!(rt; held.name().bytes(), text.as_bytes());
    }
    Ok(())
}

#[test]
fn no_more_than_64_are_added(rt: HostRuntime) -> Result<(), Fail> {
    let mut list = ScriptList::new(rt.alloc());
    for k in 0..66u32 {
        let text = format!(in rt.alloc(); "Download_Enter_{}", 99 - k)?;
        let script = script(text.as_str()).ok_or("no script")?;
        let wanted = if k < 64 { Ok(()) } else { Err(AddFault::Full) };
        assert_eq!(rt; list.add(script), wanted, "at {text}");
    }
    assert_eq!(rt; list.len(), 64);
    Ok(())
}
