// What a run is where the words name no option: as values, and as the texts that `clap` reads.
ghost use Rattle.std.specs.Prelude.{◌≡◌};
ghost use Rattle.chip_words.specs.Defaults as spec;
ghost use Rattle.chip_words.specs.Defaults.{IsReadByDefault};
ghost use Rattle.chip_words.specs.Request.{levels_by_default};
ghost use Rattle.chip_words.specs.Words.{run_asked, side_asked};

use crate::request::{Execution, ProgramFile, ProgramForm, ProtectedRun, SideRun, Tags, Terms};
use sec_base::{Geometry, Layout};

pub(crate) const LAYOUT_TEXT: &str = "1";

const LAYOUT: Layout = Layout::One;

pub(crate) const STEPS_TEXT: &str = "10000000";

const STEPS: u64 = 10_000_000;

pub(crate) const DEVICE_KEY_TEXT: &str =
    "000102030405060708090a0b0c0d0e0f101112131415161718191a1b1c1d1e1f";

const DEVICE_KEY: [u8; 32] = [
    0, 1, 2, 3, 4, 5, 6, 7, 8, 9, 10, 11, 12, 13, 14, 15, 16, 17, 18, 19, 20, 21, 22, 23, 24, 25,
    26, 27, 28, 29, 30, 31,
];

pub(crate) const SECOND_KEY_TEXT: &str =
    "202122232425262728292a2b2c2d2e2f303132333435363738393a3b3c3d3e3f";

pub(crate) const NONCE_TEXT: &str = "00000000000000000000000000000000";

const NONCE: [u8; 16] = [0; 16];

pub(crate) const TAGS_TEXT: &str = "hmac";

const TAGS: Tags = Tags::Hmac;

pub(crate) const PAGE_LIMIT_TEXT: &str = "18446744073709551615";

const PAGE_LIMIT: u64 = u64::MAX;

/// The run of the program of this file where no option is named, as `run` and the name are read.
pub fn default_run<'a>(name: &'a str) -> ProtectedRun<'a>
    ensures settings { run_asked result ≡ spec.default_run name.now }
    ensures as_read { IsReadByDefault name.now }
{
    let file = ProgramFile {
        name,
        form: ProgramForm::ElfFile,
        geometry: Geometry::with(LAYOUT, default_levels(LAYOUT)).unwrap(),
    };
    let execution = Execution {
        file,
        input: None,
        steps: STEPS,
    };
    ProtectedRun {
        execution,
        script: None,
        terms: default_terms(),
    }
}

/// The run of one of two programs that share the core, as it is alone: one where no option is named, but for its script and
/// the key of its device.
pub fn side_run<'a>(side: &SideRun<'a>) -> ProtectedRun<'a>
    ensures settings { run_asked result ≡ spec.side_run (side_asked side.now) }
{
    let run = default_run(side.name);
    let device_key = side.device_key;
    ProtectedRun {
        script: side.script,
        terms: Terms {
            device_key,
            ..run.terms
        },
        ..run
    }
}

/// How many levels a tree of this layout has where none are named.
pub(crate) fn default_levels(layout: Layout) -> u8
    ensures { result ≡ levels_by_default layout }
{
    match layout {
        Layout::One => 4,
        Layout::Two => 3,
    }
}

fn default_terms() -> Terms
    ensures { result ≡ spec.default_terms }
{
    Terms {
        device_key: DEVICE_KEY,
        tags: TAGS,
        page_limit: PAGE_LIMIT,
        nonce: NONCE,
    }
}
