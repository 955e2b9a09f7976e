use crate::effect::name_key;
use crate::{
    Change, Clears, MapLength, Pattern, PatternList, Provides, ValueList, Want, WantList, after,
    after_length, broken, first_unmet,
};
use std::alloc::Global;
use std::test::Fail;
use upd_text::{ListOf, Name, Value};

type Texts = &'static [&'static str];

type Pairs = &'static [(&'static str, &'static str)];

fn name(text: &str) -> Result<Name, Fail> {
    let name = Name::read(text.as_bytes())?;
    Ok(name)
}

fn insert(provides: &mut Provides, key: &str, value: &str) -> Result<(), Fail> {
    let value = Value::read(value.as_bytes())?;
    provides.insert(name(key)?, value)?;
    Ok(())
}

fn provides(alloc: Global, pairs: &[(&str, &str)]) -> Result<Provides, Fail> {
    let mut provides = Provides::new(alloc);
    for (key, value) in pairs {
        insert(&mut provides, key, value)?;
    }
    Ok(provides)
}

// Whether the pairs are these, in this order.
fn are(found: &Provides, pairs: &[(&str, &str)]) -> bool {
    if found.len() as usize != pairs.len() {
        return false;
    }
    for i in 0..found.len() {
        let (key, value) = found.pair(i);
        let (wanted_key, wanted) = pairs[i as usize];
        if key.bytes() != wanted_key.as_bytes() || value.bytes() != wanted.as_bytes() {
            return false;
        }
    }
    true
}

// ---- the map

const ORDERS: &[(Pairs, Pairs)] = &[
    (&[], &[]),
    (
        &[("b", "1"), ("ab", "2"), ("a", "3"), ("B", "4")],
        &[("B", "4"), ("a", "3"), ("ab", "2"), ("b", "1")],
    ),
    (
        &[("k", "1"), ("j", "2"), ("k", ""), ("l", "3"), ("j", "4")],
        &[("j", "4"), ("k", ""), ("l", "3")],
    ),
];

fn is_copied(alloc: Global, found: &Provides, pairs: Pairs) -> Result<bool, Fail> {
    let copy = found.copy(alloc)?;
    Ok(are(&copy, pairs))
}

#[test]
fn keys_stand_once_in_byte_order(rt: HostRuntime) -> Result<(), Fail> {
    for &(put, wanted) in ORDERS {
        let found = provides(rt.alloc(), put)?;
        assert!(rt; are(&found, wanted));
        assert!(rt; is_copied(rt.alloc(), &found, wanted)?);
    }
    Ok(())
}

fn has(found: &Provides, key: &str, wanted: Option<&str>) -> Result<bool, Fail> {
    let key = name(key)?;
    Ok(match (found.get(&key), wanted) {
        (None, None) => true,
        (Some(value), Some(text)) => value.bytes() == text.as_bytes(),
        _ => false,
    })
}

#[test]
fn gets_what_is_there(rt: HostRuntime) -> Result<(), Fail> {
    let found = provides(rt.alloc(), &[("b", "1"), ("ab", ""), ("d", "3")])?;
    let cases: &[(&str, Option<&str>)] = &[
        ("ab", Some("")),
        ("b", Some("1")),
        ("d", Some("3")),
        ("a", None),
        ("c", None),
        ("e", None),
    ];
    for &(key, wanted) in cases {
        assert!(rt; has(&found, key, wanted)?, "at {key}");
    }
    Ok(())
}

// ---- what a change makes of it

fn patterns(alloc: Global, texts: Texts) -> Result<PatternList, Fail> {
    let mut patterns: PatternList = ListOf::new(alloc);
    for text in texts {
        patterns.push(Pattern::of(name(text)?))?;
    }
    Ok(patterns)
}

fn clears(alloc: Global, texts: Option<Texts>) -> Result<Clears, Fail> {
    match texts {
        None => Ok(Clears::All),
        Some(texts) => {
            let patterns = patterns(alloc, texts)?;
            Ok(Clears::Listed(patterns))
        }
    }
}

fn group(text: Option<&str>) -> Result<Option<Name>, Fail> {
    match text {
        None => Ok(None),
        Some(text) => {
            let group = name(text)?;
            Ok(Some(group))
        }
    }
}

#[derive(Clone, Copy)]
struct Row {
    held: Pairs,
    group: Option<&'static str>,
    provides: Pairs,
    clears: Option<Texts>,
    wanted: Pairs,
    // of each pair 4, the key and the value
    bytes: u64,
}

const HELD: Pairs = &[
    ("artifact_name", "r0"),
    ("data.version", "4"),
    ("rootfs-image.checksum", "c"),
    ("rootfs-imagex", "x"),
];

// The name becomes r1 in each.
const ROWS: &[Row] = &[
    Row {
        held: HELD,
        group: None,
        provides: &[],
        clears: Some(&["rootfs-image.*"]),
        wanted: &[
            ("artifact_name", "r1"),
            ("data.version", "4"),
            ("rootfs-imagex", "x"),
        ],
        bytes: 54,
    },
    Row {
        held: HELD,
        group: None,
        provides: &[],
        clears: None,
        wanted: &[("artifact_name", "r1")],
        bytes: 19,
    },
    Row {
        held: &[("artifact_group", "g0"), ("k", "0"), ("z", "9")],
        group: None,
        provides: &[("k", "1"), ("artifact_name", "other"), ("a", "2")],
        clears: Some(&[]),
        wanted: &[
            ("a", "2"),
            ("artifact_group", "g0"),
            ("artifact_name", "r1"),
            ("k", "1"),
            ("z", "9"),
        ],
        bytes: 57,
    },
    Row {
        held: &[("artifact_group", "g0"), ("k", "0"), ("z", "9")],
        group: Some("g1"),
        provides: &[("k", "1"), ("a", "2")],
        clears: Some(&["artifact_*", "k*", "a"]),
        wanted: &[
            ("a", "2"),
            ("artifact_group", "g1"),
            ("artifact_name", "r1"),
            ("k", "1"),
            ("z", "9"),
        ],
        bytes: 57,
    },
    Row {
        held: &[("artifact_group", "g0"), ("artifact_name", "")],
        group: None,
        provides: &[],
        clears: Some(&["artifact_group"]),
        wanted: &[("artifact_name", "r1")],
        bytes: 19,
    },
    Row {
        held: &[("b", "0"), ("c", "0"), ("e", "0"), ("f", "0")],
        group: Some("g1"),
        provides: &[("artifact_group", "x"), ("b", "1"), ("d", "2"), ("f", "3")],
        clears: Some(&[]),
        wanted: &[
            ("artifact_group", "g1"),
            ("artifact_name", "r1"),
            ("b", "1"),
            ("c", "0"),
            ("d", "2"),
            ("e", "0"),
            ("f", "3"),
        ],
        bytes: 69,
    },
    Row {
        held: &[],
        group: None,
        provides: &[("artifact_group", "gx"), ("z", "1")],
        clears: None,
        wanted: &[
            ("artifact_group", "gx"),
            ("artifact_name", "r1"),
            ("z", "1"),
        ],
        bytes: 45,
    },
    Row {
        held: &[("a", "0"), ("b", "0")],
        group: None,
        provides: &[("x", "1"), ("y", "1")],
        clears: Some(&["b"]),
        wanted: &[("a", "0"), ("artifact_name", "r1"), ("x", "1"), ("y", "1")],
        bytes: 37,
    },
];

fn change(alloc: Global, row: Row) -> Result<Change, Fail> {
    Ok(Change {
        name: name("r1")?,
        group: group(row.group)?,
        provides: provides(alloc, row.provides)?,
        clears: clears(alloc, row.clears)?,
    })
}

#[test]
fn a_change_leaves_what_it_says(rt: HostRuntime) -> Result<(), Fail> {
    for (i, row) in ROWS.iter().enumerate() {
        let held = provides(rt.alloc(), row.held)?;
        let change = change(rt.alloc(), *row)?;
        let new = after(rt.alloc(), &held, &change)?;
        assert!(rt; are(&new, row.wanted), "at {i}");
        let length = MapLength {
            pairs: row.wanted.len() as u64,
            bytes: row.bytes,
        };
        assert_eq!(rt; after_length(&held, &change), length, "at {i}");
    }
    Ok(())
}

// The broken map, where there is a name to mark.
fn marked(alloc: Global, new: &Provides) -> Result<Option<Provides>, Fail> {
    let key = name_key();
    let Some(value) = new.get(&key) else {
        return Ok(None);
    };
    let length = value.bytes().len();
    if length < 1 || 128 < length {
        return Ok(None);
    }
    let marked = broken(alloc, new)?;
    Ok(Some(marked))
}

#[test]
fn broken_marks_the_name_alone(rt: HostRuntime) -> Result<(), Fail> {
    let new = provides(rt.alloc(), &[("k", "v"), ("artifact_name", "r1")])?;
    let Some(marked) = marked(rt.alloc(), &new)? else {
        assert!(rt; false);
        return Ok(());
    };
    assert!(rt; are(&marked, &[("artifact_name", "r1_INCONSISTENT"), ("k", "v")]));
    Ok(())
}

// ---- wants

fn values(alloc: Global, texts: Texts) -> Result<ValueList, Fail> {
    let mut values: ValueList = ListOf::new(alloc);
    for text in texts {
        values.push(Value::read(text.as_bytes())?)?;
    }
    Ok(values)
}

fn wants(alloc: Global, wanted: &[(&str, Texts)]) -> Result<WantList, Fail> {
    let mut wants: WantList = ListOf::new(alloc);
    for (key, allowed) in wanted {
        let key = name(key)?;
        let allowed = values(alloc, allowed)?;
        wants.push(Want { key, allowed })?;
    }
    Ok(wants)
}

// On a device of the type `beaglebone` that holds `app.version=1`, `device_type=other` and `e=`.
const WANTS: &[(&[(&str, Texts)], Option<&str>)] = &[
    (&[], None),
    (&[("device_type", &["beaglebone"])], None),
    (&[("device_type", &["qemux86-64", "beaglebone"])], None),
    (&[("device_type", &["other"])], Some("device_type")),
    (&[("app.version", &["1", "0"]), ("e", &[""])], None),
    (
        &[("app.version", &["0"]), ("absent", &["1"])],
        Some("app.version"),
    ),
    (&[("e", &[""]), ("absent", &["", "1"])], Some("absent")),
    (
        &[("e", &[""]), ("app.version", &["1"]), ("e", &["1"])],
        Some("e"),
    ),
    (&[("e", &[])], Some("e")),
];

fn is_key(found: &Option<Name>, wanted: Option<&str>) -> bool {
    match (found, wanted) {
        (None, None) => true,
        (Some(key), Some(text)) => key.bytes() == text.as_bytes(),
        _ => false,
    }
}

#[test]
fn tells_the_first_unmet_want(rt: HostRuntime) -> Result<(), Fail> {
    let pairs: Pairs = &[("app.version", "1"), ("device_type", "other"), ("e", "")];
    let held = provides(rt.alloc(), pairs)?;
    let device = name("beaglebone")?;
    for (i, &(wanted, unmet)) in WANTS.iter().enumerate() {
        let wants = wants(rt.alloc(), wanted)?;
        assert!(rt;
            is_key(&first_unmet(&wants, &device, &held), unmet),
            "at {i}"
        );
    }
    Ok(())
}

// ---- patterns

// The last two end at once only where a star isn't tried at each place in turn.
const PATTERNS: &[(&str, &str, bool)] = &[
    ("*a*", "bab", true),
    ("*a*", "a", true),
    ("*a*", "bbb", false),
    ("*", "anything", true),
    ("a", "a", true),
    ("a", "ab", false),
    ("a*", "ab", true),
    ("*b", "ab", true),
    ("**", "x", true),
    ("a*b*c", "a-b-b-c", true),
    ("a*b*c", "a-c-b", false),
    ("?", "x", false),
    ("*.*", "rootfs-image.version", true),
    ("a*a", "a", false),
    ("a*bc", "abbc", true),
    ("a*bc", "abcb", false),
    ("*ab*b*", "aabab", true),
    ("*ab*ba*", "aabbbab", true),
    ("*ab*ab*", "bbaba", false),
    ("a", "*", false),
    ("*", "*", true),
    (STARS, ALMOST, false),
    (STARS, LETTERS, true),
];

const STARS: &str =
    "*a*a*a*a*a*a*a*a*a*a*a*a*a*a*a*a*a*a*a*a*a*a*a*a*a*a*a*a*a*a*a*a*a*a*a*a*a*a*a*a*a*a*a*a*a*a*a*a*a*a*a*a*a*a*a*a*a*a*a*a*a*a*a*a";

const LETTERS: &str =
    "aaaaaaaaaaaaaaaaaaaaaaaaaaaaaaaaaaaaaaaaaaaaaaaaaaaaaaaaaaaaaaaaaaaaaaaaaaaaaaaaaaaaaaaaaaaaaaaaaaaaaaaaaaaaaaaaaaaaaaaaaaaaaaaa";

const ALMOST: &str =
    "aaaaaaaaaaaaaaaaaaaaaaaaaaaaaaaaaaaaaaaaaaaaaaaaaaaaaaaaaaaaaaaaaaaaaaaaaaaaaaaaaaaaaaaaaaaaaaaaaaaaaaaaaaaaaaaaaaaaaaaaaaaaaaab";

fn is_matched(pattern: &str, key: &str) -> Result<bool, Fail> {
    let pattern = Pattern::of(name(pattern)?);
    let key = name(key)?;
    Ok(pattern.matches(&key))
}

#[test]
fn patterns_match(rt: HostRuntime) -> Result<(), Fail> {
    for &(pattern, key, wanted) in PATTERNS {
        assert!(rt; is_matched(pattern, key)? == wanted, "at {pattern}");
    }
    Ok(())
}
