//! Rounds that seeds draw, by values that were computed elsewhere.

use super::boots::{new_device, site_of};
use super::words::words_of;
use device_mem::Script;
use device_model::Answer;
use io_model::{MemSink, MemSource};
use lab::{Generator, Round, top, tree_of};
use std::alloc::Global;
use std::test::Fail;
use upd_text::{CallList, NoMemory};

fn round_at(alloc: Global, seed: u64, before: u32) -> Result<Round, NoMemory> {
    let mut generator = Generator::new(seed);
    for _i in 0..before {
        let _passed = generator.draw_round(alloc)?;
    }
    generator.draw_round(alloc)
}

fn says(answer: &Answer, word: &[u8]) -> bool {
    match answer {
        Answer::Reply(0, text) => text.bytes() == word,
        _ => false,
    }
}

/// A digit for each answer: its exit code.
fn codes(alloc: Global, script: &Script) -> Result<Vec<u8>, Fail> {
    let mut codes = Vec::new(alloc);
    for i in 0..script.answers.len() {
        match script.answers.at(i) {
            Answer::Exit(code) => codes.push(b'0'.saturating_add(*code))?,
            _ => codes.push(b'x')?,
        }
    }
    Ok(codes)
}

/// From 0 the state is 1442695040888963407, of which 2^33 goes 167951807 times into it, 3 more than a multiple of 4; then it is
/// 1876011003808476466, with 218396424, 424 more than a multiple of 2000. From 1 it is 7806831264735756412, with 908834774, 2
/// more than a multiple of 4.
#[test]
fn draws_are_those_worked_by_hand(rt: HostRuntime) -> Result<(), Fail> {
    let mut generator = Generator::new(0);
    assert_eq!(rt; generator.draw(4), 3);
    assert_eq!(rt; generator.state, 1_442_695_040_888_963_407);
    assert_eq!(rt; generator.draw(2_000), 424);
    assert_eq!(rt; Generator::new(1).draw(4), 2);
    Ok(())
}

/// What a seed draws for a round.
struct Drawn {
    seed: u64,
    /// The rounds that it drew before.
    before: u32,
    lengths: &'static [u64],
    supports: &'static [u8],
    needs: &'static [u8],
    exits: &'static [u8],
    cuts: &'static [u64],
}

const ROUNDS: &[Drawn] = &[
    Drawn {
        seed: 0,
        before: 0,
        lengths: &[424, 1937, 1236, 125],
        supports: b"Yes",
        needs: b"Automatic",
        exits: b"010000000000",
        cuts: &[10, 5, 7],
    },
    Drawn {
        seed: 0,
        before: 1,
        lengths: &[1613, 1883, 1841],
        supports: b"Yes",
        needs: b"Automatic",
        exits: b"001000000101",
        cuts: &[1, 1, 1],
    },
    Drawn {
        seed: 1,
        before: 0,
        lengths: &[153, 1196, 870],
        supports: b"No",
        needs: b"Automatic",
        exits: b"000000010000",
        cuts: &[],
    },
    Drawn {
        seed: 7,
        before: 0,
        lengths: &[1231, 753, 673],
        supports: b"Yes",
        needs: b"Automatic",
        exits: b"100000110000",
        cuts: &[],
    },
    Drawn {
        seed: 7,
        before: 1,
        lengths: &[936, 1793, 1654, 98],
        supports: b"Yes",
        needs: b"No",
        exits: b"100110000000",
        cuts: &[],
    },
];

#[test]
fn seeds_draw_these_rounds(rt: HostRuntime) -> Result<(), Fail> {
    for row in ROUNDS {
        let round = round_at(rt.alloc(), row.seed, row.before)?;
        assert_eq!(rt; round.lengths.as_slice(), row.lengths);
        assert!(rt; says(&round.script.supports, row.supports));
        assert!(rt; says(&round.script.needs, row.needs));
        assert_eq!(rt; codes(rt.alloc(), &round.script)?.as_slice(), row.exits);
        assert_eq!(rt; round.script.cuts.as_slice(), row.cuts);
    }
    Ok(())
}

/// The tree of a round would be taken by a new device.
#[test]
fn the_tree_of_a_round_is_admitted(rt: HostRuntime) -> Result<(), Fail> {
    let round = Generator::new(0).draw_round(rt.alloc())?;
    let files = tree_of(rt.alloc(), &round.lengths)?;
    assert_eq!(rt; files.len(), 8);
    let mut source = MemSource::new(files, CallList::new(rt.alloc()));
    let mut device = new_device(rt.alloc(), round.script)?;
    let mut out = MemSink::new(rt.alloc(), 100, CallList::new(rt.alloc()))?;
    let words = words_of(rt.alloc(), "check tree")?;
    let site = site_of(rt.alloc())?;
    let status = top(
        rt.alloc(),
        words.as_slice(),
        &site,
        &mut source,
        &mut out,
        &mut device,
    );
    assert_eq!(rt; status.number(), 0);
    Ok(())
}
