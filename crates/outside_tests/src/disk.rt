// The disk over files of the machine: what is written is there, and lasts.
use crate::calls::{Answers, done, first_other, name, writes};
use crate::counting::{Counted, Counts};
use crate::files::{clears, first_of_files};
use lp_outside::{Disk, Name};
use std::alloc::Global;
use std::fs;
use system_outside::FileDisk;

const PLACES: &str = "\
write outside_places/one.csv 4 efgh => +
write outside_places/one.csv 0 abcd => +
write outside_places/one.csv 6 GH => +
read outside_places/one.csv 2 4 => 4 [99, 100, 101, 102]
write outside_places/one.csv 1 B => +
again read outside_places/one.csv 0 4 => 4 [97, 66, 99, 100]
cut outside_places/one.csv 9 => +
length outside_places/one.csv => Some(8)
cut outside_places/one.csv 5 => +
again length outside_places/one.csv => Some(5)
write outside_places/one.csv 7 => +
again length outside_places/one.csv => Some(7)";

// A place is that of the call, whatever was read or written before; and another handle reads the same.
#[test]
fn places(rt: HostRuntime) {
    assert!(rt; clears(&rt, "outside_places"));
    assert_eq!(rt; first_of_files(&rt, PLACES), None);
    assert!(rt; clears(&rt, "outside_places"));
}

// A disk over files whose opens and syncs are counted.
#[derive(Drop)]
struct CountedDisk<'a, 'b, D: Disk> {
    alloc: Global,
    disk: &'a mut D,
    counts: &'b Counts,
}

impl<'a, 'b, D: Disk> Answers for CountedDisk<'a, 'b, D> {
    // How many files and folders were synced so far, behind a call that didn't fail.
    fn answer(&mut self, line: &str) -> Option<String> {
        if !done(self.disk, line) {
            return None;
        }
        let syncs = self.counts.syncs.get();
        format!(in self.alloc; "{syncs}").ok()
    }
}

// The names of the two folders that were made are synced at once.
const SYNCS: &str = "\
write outside_synced/deep/one.csv 0 a => 2
sync outside_synced/deep/one.csv => 6
write outside_synced/deep/one.csv 1 b => 6
sync outside_synced/deep/one.csv => 7
sync outside_synced/deep/one.csv => 7
cut outside_synced/deep/one.csv 2 => 7
sync outside_synced/deep/one.csv => 7
cut outside_synced/deep/one.csv 1 => 7
sync outside_synced/deep/one.csv => 8
write outside_synced/deep/two.csv 0 a => 8
sync outside_synced/deep/two.csv => 12";

// By another handle, behind those.
const MORE_SYNCS: &str = "\
sync outside_synced/deep/one.csv => 16
write outside_synced/deep/two.csv 1 b => 16
sync outside_synced/deep/two.csv => 17";

// The first row at which a new handle has synced another number of times.
fn first_of_syncs<'r, 'a>(
    rt: &'r HostRuntime,
    counts: &'r Counts,
    rows: &'a str,
) -> Option<&'a str> {
    let counted = Counted { rt, counts };
    let mut disk = FileDisk::new(&counted);
    let mut answers = CountedDisk {
        alloc: rt.alloc(),
        disk: &mut disk,
        counts,
    };
    first_other(&mut answers, rows)
}

// A first sync makes the file and each folder of its name durable, a later one the file alone, and one behind which nothing
// changed asks for nothing. A second file of the folder needs no folder, unless it was made since.
#[test]
fn syncs(rt: HostRuntime) {
    let counts = Counts::new();
    assert!(rt; clears(&rt, "outside_synced"));
    assert_eq!(rt; first_of_syncs(&rt, &counts, SYNCS), None);
    assert_eq!(rt; first_of_syncs(&rt, &counts, MORE_SYNCS), None);
    assert!(rt; clears(&rt, "outside_synced"));
}

// The stage, the output and the ledger of a run.
#[derive(Drop)]
struct RunFiles {
    stage: Name,
    output: Name,
    ledger: Name,
}

fn run_files() -> Option<RunFiles> {
    Some(RunFiles {
        stage: name("outside_handles/cp.stage", 0)?,
        output: name("outside_handles/o.csv", 0)?,
        ledger: name("outside_handles/cp", 0)?,
    })
}

impl RunFiles {
    fn are_made<D: Disk>(&self, disk: &mut D) -> bool {
        writes(disk, &self.stage, 0, b"abcdef")
            && writes(disk, &self.output, 0, b"")
            && writes(disk, &self.ledger, 0, b"")
    }

    // Two bytes go from the stage into the output, and one is added to the ledger.
    fn pass<D: Disk>(&self, disk: &mut D, at: u64) -> bool {
        let mut piece = [0u8; 2];
        let Ok(count) = disk.read_at(&self.stage, at, &mut piece) else {
            return false;
        };
        writes(disk, &self.output, at, &piece[..count.min(2)])
            && writes(disk, &self.ledger, at, b"x")
    }

    fn pass_all<D: Disk>(&self, disk: &mut D) -> bool {
        self.pass(disk, 0) && self.pass(disk, 2) && self.pass(disk, 4)
    }
}

// Whether the text goes over, and no file is opened meanwhile.
fn opens_nothing<D: Disk>(disk: &mut D, counts: &Counts) -> Option<bool> {
    let files = run_files()?;
    let made = files.are_made(disk);
    let before = counts.opens.get();
    let passed = files.pass_all(disk);
    Some(made && passed && counts.opens.get() == before)
}

fn text_goes_over(rt: &HostRuntime) -> Option<bool> {
    let counts = Counts::new();
    let counted = Counted {
        rt,
        counts: &counts,
    };
    let mut disk = FileDisk::new(&counted);
    opens_nothing(&mut disk, &counts)
}

const WHOLE: &str = "read outside_handles/o.csv 0 6 => 6 [97, 98, 99, 100, 101, 102]";

// A text that goes from one file into another opens each of them once, also where a third is written between.
#[test]
fn handles(rt: HostRuntime) {
    assert!(rt; clears(&rt, "outside_handles"));
    assert!(rt; text_goes_over(&rt) == Some(true));
    assert_eq!(rt; first_of_files(&rt, WHOLE), None);
    assert!(rt; clears(&rt, "outside_handles"));
}

const REFUSALS: &str = "\
write /dev/full 0 a => !
write /proc/version 0 a => !
write outside_refused 0 a => !
length outside_refused => None
write /dev/null/a 0 a => !";

// A full device, a file that can't be written, and a folder are faults.
#[test]
fn refusals(rt: HostRuntime) {
    assert!(rt; clears(&rt, "outside_refused"));
    assert!(rt; fs::create_dir(&rt, "outside_refused").is_ok());
    assert_eq!(rt; first_of_files(&rt, REFUSALS), None);
    assert!(rt; clears(&rt, "outside_refused"));
}
