//! Changes of a log that follow one another: records that are appended, and checkpoints.

ghost use Rattle.std.specs.Prelude.{◌≡◌, true, List, OnOk};
ghost use Rattle.std.specs.List.{AllByRecursion};
ghost use Rattle.log_codec.specs.Payloads.{IsWritable};

use crate::log_calls::{SIZE, create};
use disk::Disk;
use gfs_types::ids::{FileId, Handle};
use gfs_types::lists::Text;
use gfs_types::no_memory::NoMemory;
use log_codec::{is_item, is_writable};
use log_records::record::Record;
use oplog::{Log, LogFault, is_checkpoint};
use std::alloc::Global;

/// How many changes there are.
pub(crate) const STEPS: usize = 5;

/// What the changes write: a Create, a checkpoint of one item, an Epoch, a checkpoint of two items, and the Create again.
#[derive(Drop)]
pub(crate) struct StopPlan {
    create: Vec<Record>,
    epoch: Vec<Record>,
    one: Vec<Record>,
    two: Vec<Record>,
}

/// How many changes were made, and how the one after them, or the opening before all, failed.
#[derive(Clone, Copy)]
pub(crate) struct Made {
    pub(crate) count: usize,
    pub(crate) fault: Option<LogFault>,
}

pub(crate) fn counters(next: u64) -> Record {
    Record::Counters {
        next_file: FileId(next),
        next_handle: Handle(next),
        epoch: 1,
    }
}

impl StopPlan {
    pub(crate) fn new(alloc: Global) -> Result<StopPlan, NoMemory> {
        let mut plan = StopPlan {
            create: Vec::new(alloc),
            epoch: Vec::new(alloc),
            one: Vec::new(alloc),
            two: Vec::new(alloc),
        };
        match plan.fill(alloc) {
            Ok(()) => Ok(plan),
            Err(fault) => {
                drop(plan);
                Err(fault)
            }
        }
    }

    // Borrows the plan, so that it is let go at one place alone.
    fn fill(&mut self, alloc: Global) -> Result<(), NoMemory> {
        self.create.push(create(alloc)?)?;
        self.epoch.push(Record::Epoch { epoch: 1 })?;
        self.one.push(counters(1))?;
        self.two.push(counters(2))?;
        self.two.push(Record::DirItem {
            path: Text::from_str("/", alloc)?,
        })?;
        Ok(())
    }

    // Whether a log has these items and records after so many changes.
    fn is_after(&self, count: usize, items: &[Record], records: &[Record]) -> bool {
        let (wanted, others): (&[Record], &[Record]) = match count {
            0 => (&[], &[]),
            1 => (&[], &self.create),
            2 => (&self.one, &[]),
            3 => (&self.one, &self.epoch),
            4 => (&self.two, &[]),
            _ => (&self.two, &self.create),
        };
        items == wanted && records == others
    }

    // After how many changes a log has these entries, of which so many are items.
    fn place_of(&self, entries: &[Record], items: usize) -> Result<usize, LogFault> {
        if items > entries.len() {
            return Err(LogFault::Damaged);
        }
        let (items, records) = entries.split_at(items);
        for count in 0..=STEPS {
            if self.is_after(count, items, records) {
                return Ok(count);
            }
        }
        Err(LogFault::Damaged)
    }
}

// Appends the one record of a list.
fn append_first<D: Disk>(
    log: &mut Log<D>,
    alloc: Global,
    records: &[Record],
) -> Result<(), LogFault>
    requires { log.old.is_open ≡ true }
    ensures { OnOk result (log.new.is_open ≡ true) }
{
    match records {
        [logged, ..] => {
            if !is_writable(logged) || is_item(logged) {
                return Err(LogFault::Damaged);
            }
            log.append(alloc, logged)
        }
        [] => Err(LogFault::Damaged),
    }
}

// Whether these are one or two items that have bytes.
fn are_writable(items: &[Record]) -> bool
    ensures { result ≡ true → AllByRecursion IsWritable items.now }
{
    match items {
        [one] => is_writable(one),
        [one, two] => is_writable(one) && is_writable(two),
        _ => false,
    }
}

pub(crate) fn write_items<D: Disk>(
    log: &mut Log<D>,
    alloc: Global,
    items: &[Record],
) -> Result<(), LogFault>
    requires { log.old.is_open ≡ true }
    ensures { OnOk result (log.new.is_open ≡ true) }
{
    if !are_writable(items) || !is_checkpoint(items) {
        return Err(LogFault::Damaged);
    }
    log.checkpoint(alloc, items)
}

// The change of a number.
fn change<D: Disk>(
    log: &mut Log<D>,
    alloc: Global,
    plan: &StopPlan,
    number: usize,
) -> Result<(), LogFault>
    requires { log.old.is_open ≡ true }
    ensures { OnOk result (log.new.is_open ≡ true) }
{
    match number {
        1 => write_items(log, alloc, &plan.one),
        2 => append_first(log, alloc, &plan.epoch),
        3 => write_items(log, alloc, &plan.two),
        _ => append_first(log, alloc, &plan.create),
    }
}

fn change_all<D: Disk>(log: &mut Log<D>, alloc: Global, plan: &StopPlan) -> Made
    requires { log.old.is_open ≡ true }
{
    for number in 0..STEPS {
        match change(log, alloc, plan, number) {
            Ok(()) => {}
            Err(fault) => {
                return Made {
                    count: number,
                    fault: Some(fault),
                };
            }
        }
    }
    Made {
        count: STEPS,
        fault: None,
    }
}

/// Opens the log, and makes all changes.
pub(crate) fn run<D: Disk + Drop>(disk: D, alloc: Global, plan: &StopPlan) -> (D, Made) {
    if disk.size() != SIZE {
        let fault = Some(LogFault::Damaged);
        return (disk, Made { count: 0, fault });
    }
    match Log::open(alloc, disk) {
        Ok((mut log, entries)) => {
            drop(entries);
            let made = change_all(&mut log, alloc, plan);
            (log.into_disk(), made)
        }
        Err((disk, fault)) => {
            let fault = Some(fault);
            (disk, Made { count: 0, fault })
        }
    }
}

/// Opens the log: after how many changes it has what it has, and Damaged where there are none such.
pub(crate) fn find<D: Disk + Drop>(
    disk: D,
    alloc: Global,
    plan: &StopPlan,
) -> (D, Result<usize, LogFault>) {
    if disk.size() != SIZE {
        return (disk, Err(LogFault::Damaged));
    }
    match Log::open(alloc, disk) {
        Ok((log, entries)) => {
            let found = plan.place_of(&entries, log.item_count());
            drop(entries);
            (log.into_disk(), found)
        }
        Err((disk, fault)) => (disk, Err(fault)),
    }
}
