//! A source that tells nothing, and changes a file after the admission.

ghost use Rattle.std.specs.Prelude.{◌≡◌, IfOk};
ghost use Rattle.device_mem.specs.Mem.{state_of};
ghost use Rattle.work_folder.specs.Prepare.{IsReady};

use super::boots::{quiet, site_of};
use admit::admit;
use device_mem::{AreaBytes, MemDevice};
use io_model::{Source, SourceFault};
use provides_map::Provides;
use std::alloc::Global;
use std::test::Fail;
use upd_text::Name;
use work_folder::{PrepareFault, prepare};

const VERSION: &[u8] = b"{\"format\":\"mender\",\"version\":3}";

const HEADER: &[u8] =
    b"{\"payloads\":[{\"type\":\"single-file\"}],\"artifact_provides\":{\"artifact_name\":\"release-2\"},\"artifact_depends\":{\"device_type\":[\"beaglebone\"]}}";

const INFO: &[u8] =
    b"{\"type\":\"single-file\",\"artifact_provides\":{\"app.version\":\"2\"},\"clears_artifact_provides\":[\"app.*\"]}";

const MANIFEST: &[u8] = b"96bcd965947569404798bcbdb614f103db5a004eb6e364cfc162c146890ea35b  version
a36956332692a1e6a21edef6755bb1870fefeeb6482ad956c45436762fc6cf43  header/header-info
86ae84a1cb20d1d155691964d4d0aa9ae9a5a902e7cf4132c33d22091ca91dae  header/headers/0000/type-info
ba7816bf8f01cfea414140de5dae2223b00361a396177a9cb410ff61f20015ad  data/0000/app.bin
";

#[derive(Drop)]
struct Changing {
    app: &'static [u8],
    faults: u64,
}

impl Changing {
    fn bytes(&self, i: u32) -> &'static [u8] {
        match i {
            0 => VERSION,
            1 => HEADER,
            2 => INFO,
            3 => self.app,
            _ => MANIFEST,
        }
    }
}

impl Source for Changing {
    ghost use Rattle.std.specs.Prelude.{None};
    ghost use Rattle.io_model.specs.Source.Content.{Untold};

    type Plan = ();

    ghost content = { λ _. Untold 5 };

    ghost given = { λ _. None };

    ghost faults = { λ s. s.faults };

    ghost plan = { λ _. None };

    fn files(&self) -> u32 {
        let _faults = self.faults;
        5
    }

    fn path(&mut self, i: u32) -> Result<Option<Name>, SourceFault> {
        let text: &[u8] = match i {
            0 => b"version",
            1 => b"header/header-info",
            2 => b"header/headers/0000/type-info",
            3 => b"data/0000/app.bin",
            _ => b"manifest",
        };
        Ok(Name::read(text).ok())
    }

    fn length(&mut self, i: u32) -> Result<u64, SourceFault> {
        let length = self.bytes(i).len() as u64;
        if length >= 1_000 {
            self.faults = self.faults.saturating_add(1);
            return Err(SourceFault);
        }
        Ok(length)
    }

    fn read(&mut self, i: u32, at: u64, into: &mut [u8]) -> Result<usize, SourceFault> {
        let bytes = self.bytes(i);
        let from = at as usize;
        if from >= bytes.len() {
            self.faults = self.faults.saturating_add(1);
            return Err(SourceFault);
        }
        let count = usize::min(into.len(), bytes.len() - from);
        into[..count].copy_from_slice(&bytes[from..from + count]);
        Ok(count)
    }
}

/// A device on which nothing fails.
fn device_of(alloc: Global) -> Result<MemDevice, Fail>
    ensures { IfOk result (λ m. IsReady (state_of m)) }
{
    let device = MemDevice::new(alloc, AreaBytes::zeros(alloc)?, 10, quiet(alloc))?;
    Ok(device)
}

#[test]
fn changed_file_differs(rt: HostRuntime) -> Result<(), Fail> {
    let alloc = rt.alloc();
    let mut source = Changing {
        app: b"abc",
        faults: 0,
    };
    let site = site_of(alloc)?;
    let held = Provides::new(alloc);
    let Ok(admitted) = admit(alloc, &mut source, &site, &held) else {
        return Err("not admitted".into());
    };
    source.app = b"abd";
    let mut device = device_of(alloc)?;
    let mut buffer = [0u8; 2];
    let answer = prepare(
        &mut device,
        &mut source,
        &admitted,
        &site,
        &held,
        &mut buffer,
    );
    let Err(PrepareFault::Differs(differs)) = answer else {
        return Err("another answer".into());
    };
    assert_eq!(rt; differs.path.bytes(), b"data/0000/app.bin".as_slice());
    let listed = b"ba7816bf8f01cfea414140de5dae2223b00361a396177a9cb410ff61f20015ad";
    let found = b"a52d159f262b2c6ddb724a61840befc36eb30c88877a4030b65cbe86298449c9";
    assert_eq!(rt; differs.listed.hex(), *listed);
    assert_eq!(rt; differs.found.hex(), *found);
    Ok(())
}
