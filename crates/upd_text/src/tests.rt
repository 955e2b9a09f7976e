use crate::{
    CallList, ListOf, Name, NameFault, NoMemory, Text32, Value, decimal, has_slash, is_plain,
    read_decimal, read_device_type,
};
use std::alloc::Global;
use std::test::Fail;

fn fault_of_name(bytes: &[u8]) -> Option<NameFault> {
    match Name::read(bytes) {
        Ok(_) => None,
        Err(fault) => Some(fault),
    }
}

fn fault_of_value(bytes: &[u8]) -> Option<NameFault> {
    match Value::read(bytes) {
        Ok(_) => None,
        Err(fault) => Some(fault),
    }
}

#[test]
fn names_and_values(rt: HostRuntime) {
    let long = [97u8; 1025];
    let bad_end = [b'a', b'b', 127];
    let high = [0xffu8, 0x80];
    let cases = [
        (b"".as_slice(), Some(NameFault::Empty), None),
        (b" ".as_slice(), None, None),
        (b"data/0000/a".as_slice(), None, None),
        (long.split_at(128).0, None, None),
        (long.split_at(129).0, Some(NameFault::TooLong), None),
        (long.split_at(1024).0, Some(NameFault::TooLong), None),
        (
            long.as_slice(),
            Some(NameFault::TooLong),
            Some(NameFault::TooLong),
        ),
        (
            b"a\tb\n".as_slice(),
            Some(NameFault::BadByte(1)),
            Some(NameFault::BadByte(1)),
        ),
        (
            bad_end.as_slice(),
            Some(NameFault::BadByte(2)),
            Some(NameFault::BadByte(2)),
        ),
        (high.as_slice(), None, None),
    ];
    for (bytes, name, value) in &cases {
        assert_eq!(rt; fault_of_name(bytes), *name, "at {bytes:?}");
        assert_eq!(rt; fault_of_value(bytes), *value, "at {bytes:?}");
    }
}

#[test]
fn copies_have_the_same_bytes(rt: HostRuntime) -> Result<(), Fail> {
    let name = Name::read(b"app").ok().ok_or("no name")?;
    assert_eq!(rt; name.twin().bytes(), b"app".as_slice());
    assert_eq!(rt; Value::of_name(&name).bytes(), b"app".as_slice());
    let value = Value::read(b"7.1").ok().ok_or("no value")?;
    assert_eq!(rt; value.twin().bytes(), b"7.1".as_slice());
    let many = [b'x'; 40];
    for (given, kept) in [(0, 0), (31, 31), (32, 32), (33, 32), (40, 32)] {
        assert!(rt; given <= many.len() && kept <= many.len());
        let text = Text32::cut(many.split_at(given).0);
        assert_eq!(rt; text.twin().bytes(), many.split_at(kept).0, "at {given}");
    }
    Ok(())
}

#[test]
fn numbers(rt: HostRuntime) {
    let written = [
        (0, "0"),
        (7, "7"),
        (10, "10"),
        (u64::MAX, "18446744073709551615"),
    ];
    for (number, text) in &written {
        assert_eq!(rt; decimal(*number).bytes(), text.as_bytes());
    }
    let read = [
        ("0", Some(0)),
        ("007", Some(7)),
        ("00000000000000000042", Some(42)),
        ("18446744073709551615", Some(u64::MAX)),
        ("18446744073709551616", None),
        ("99999999999999999999", None),
        ("000000000000000000042", None),
        ("", None),
        ("+1", None),
        ("-1", None),
        ("1 ", None),
        ("1a", None),
        ("/", None),
        (":", None),
    ];
    for (text, number) in &read {
        assert_eq!(rt; read_decimal(text.as_bytes()), *number, "at {text}");
    }
}

#[test]
fn device_types(rt: HostRuntime) {
    let cases = [
        ("device_type=beaglebone", Some("beaglebone")),
        ("device_type=beaglebone\n", Some("beaglebone")),
        ("device_type=a b\nmore\n", Some("a b")),
        ("device_type==", Some("=")),
        ("device_type=", None),
        ("device_type=\nbeaglebone", None),
        ("\ndevice_type=beaglebone", None),
        (" device_type=beaglebone", None),
        ("Device_type=beaglebone", None),
        ("device_type=bad\r\n", None),
        ("", None),
    ];
    for (text, wanted) in &cases {
        let found = match read_device_type(text.as_bytes()) {
            Some(name) => is_text(*wanted, name.bytes()),
            None => wanted.is_none(),
        };
        assert!(rt; found, "at {text}");
    }
}

fn is_text(wanted: Option<&str>, bytes: &[u8]) -> bool {
    match wanted {
        Some(text) => text.as_bytes() == bytes,
        None => false,
    }
}

fn counted(alloc: Global) -> Result<CallList, NoMemory> {
    let mut list = ListOf::new(alloc);
    for k in 0..40u64 {
        list.push(k * 3)?;
    }
    Ok(list)
}

#[test]
fn lists_grow(rt: HostRuntime) -> Result<(), Fail> {
    let list = counted(rt.alloc()).ok().ok_or("memory")?;
    assert_eq!(rt; list.len(), 40);
    assert_eq!(rt; *list.at(0), 0);
    assert_eq!(rt; *list.at(39), 117);
    Ok(())
}

#[test]
fn parts_of_paths(rt: HostRuntime) {
    let cases = [
        ("", false, true),
        ("a", false, true),
        (".", false, false),
        ("..", false, false),
        ("...", false, true),
        ("a/b", true, false),
        ("/", true, false),
    ];
    for (text, slash, plain) in cases {
        assert_eq!(rt; has_slash(text.as_bytes()), slash);
        assert_eq!(rt; is_plain(text.as_bytes()), plain);
    }
}
