use crate::{Reboot, read_needs, read_supports};
use upd_text::Text32;

#[test]
fn replies(rt: HostRuntime) {
    for (code, text, supports, needs) in [
        (0, "", Some(false), Some(Reboot::No)),
        (0, "\n", Some(false), Some(Reboot::No)),
        (0, "No", Some(false), Some(Reboot::No)),
        (0, "No\n", Some(false), Some(Reboot::No)),
        (0, "Yes", Some(true), Some(Reboot::Yes)),
        (0, "Yes\n", Some(true), Some(Reboot::Yes)),
        (0, "Automatic", None, Some(Reboot::Automatic)),
        (0, "Automatic\n", None, Some(Reboot::Automatic)),
        (0, "Yes\n\n", None, None),
        (0, "\n\n", None, None),
        (0, "\nYes", None, None),
        (0, "Yes\r\n", None, None),
        (0, "Yes ", None, None),
        (0, "yes", None, None),
        (0, "Maybe", None, None),
        (0, "Automatic\n\n", None, None),
        (1, "Yes", None, None),
        (1, "", None, None),
        (255, "No\n", None, None),
    ] {
        let text = Text32::cut(text.as_bytes());
        assert_eq!(rt; read_supports(code, &text), supports);
        assert_eq!(rt; read_needs(code, &text), needs);
    }
}
