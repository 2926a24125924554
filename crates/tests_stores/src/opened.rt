//! A master that is opened over a disk, which it hands back.

use crate::old_logs::{ADD_CHUNK, disk_with};
use disk::{Disk, FuseDisk, MemDisk};
use gfs_types::answer::Answer;
use gfs_types::call::Call;
use gfs_types::config::Config;
use gfs_types::ids::{ClientId, Moment, Node};
use gfs_types::lists::Text;
use gfs_types::no_memory::NoMemory;
use gfs_types::torn::Torn;
use master_cell::master::Master;
use master_cell::opening_fault::OpeningFault;
use messages::event::{NodeInput, StepOut};
use messages::message::{Body, Message, NameReply};
use operation_log::fault::OperationLogFault;
use protocol::down_cause::DownCause;
use std::alloc::Global;

const SIZE: usize = 65_536;

const NOW: Moment = Moment(0);

const DEADLINE: Moment = Moment(1_000);

type DiskMaster = Master<Global, FuseDisk>;

/// The master of three chunkservers over a disk, or why it can't be up; NoRoom where the disk has another size than a log may have.
fn open_master(alloc: Global, disk: FuseDisk) -> Result<DiskMaster, OpeningFault> {
    let config = Config {
        log_bytes: SIZE as u64,
        ..Config::default()
    };
    let size = disk.size();
    if config.lease_ms > 3_600_000
        || config.skew_ms > 60_000
        || size < 4_096
        || size > 1_073_741_824
    {
        drop(disk);
        return Err(OpeningFault::Down(DownCause::NoRoom));
    }
    match Master::open(alloc, config, 3, disk, NOW, alloc) {
        Ok(master) => Ok(master),
        Err((disk, fault)) => {
            drop(disk);
            Err(fault)
        }
    }
}

/// What a step answers a request on names.
fn answer_in(out: &StepOut) -> Option<Answer> {
    for message in out.sent.as_slice() {
        if let Body::Named {
            reply: NameReply::Answered(answer),
            ..
        } = &message.body
        {
            return answer.clone().ok();
        }
    }
    None
}

/// A client's message.
fn told(body: Body) -> Message {
    Message {
        number: 1,
        sender: Node::Client(ClientId(1)),
        receiver: Node::Master,
        body,
    }
}

/// What the master answers a client's message.
fn ask(master: &mut DiskMaster, body: Body) -> Option<Answer> {
    let out = master.step(NOW, NodeInput::Deliver(told(body)));
    let answer = answer_in(&out);
    drop(out);
    answer
}

fn mkdir(alloc: Global, call_number: u64, path: &str) -> Result<Body, NoMemory> {
    Ok(Body::Name {
        call_number,
        deadline: DEADLINE,
        call: Call::Mkdir(Text::from_str(path, alloc)?),
    })
}

/// Whether the root lists just this name, beside the directory of deleted files.
fn lists_one(master: &mut DiskMaster, alloc: Global, name: &str) -> Result<bool, NoMemory> {
    let call = Call::List(Text::from_str("/", alloc)?);
    let listed = ask(
        master,
        Body::Look {
            call_number: 3,
            call,
        },
    );
    let is_one = match &listed {
        Some(Answer::Names(names)) => match names.as_slice() {
            [deleted, one] => deleted.as_str() == ".gone/" && one.as_str() == name,
            _ => false,
        },
        _ => false,
    };
    drop(listed);
    Ok(is_one)
}

/// Whether a Mkdir is done, and one of which the disk takes no record isn't answered: the master says that it goes down for its disk.
fn makes_one_of_two(master: &mut DiskMaster, alloc: Global) -> Result<bool, NoMemory> {
    let made = ask(master, mkdir(alloc, 1, "/d")?);
    let is_made = matches!(&made, Some(Answer::Done));
    drop(made);
    let second = told(mkdir(alloc, 2, "/e")?);
    master.arm(0);
    let outcome = master.take_step(NOW, Some(&second));
    drop(second);
    let is_lost = answer_in(&outcome.out).is_none();
    let has_failed = matches!(outcome.cause, Some(DownCause::Device));
    drop(outcome);
    Ok(is_made && is_lost && has_failed && !master.is_up())
}

/// Whether a directory that was answered is there once its master was opened again, and one that its disk took no record of isn't.
fn outlasts_a_stop(alloc: Global) -> Result<bool, NoMemory> {
    let Ok(disk) = MemDisk::new(alloc, SIZE) else {
        return Ok(false);
    };
    let Ok(first) = open_master(alloc, FuseDisk::new(disk)) else {
        return Ok(false);
    };
    let mut master = first;
    let is_one_made = makes_one_of_two(&mut master, alloc);
    let disk = master.into_disk().stop(Torn::Old);
    let Ok(second) = open_master(alloc, FuseDisk::new(disk)) else {
        return Ok(false);
    };
    let mut again = second;
    let is_listed = lists_one(&mut again, alloc, "d/");
    drop(again);
    Ok(is_one_made? && is_listed?)
}

#[test]
fn a_master_is_opened_over_the_disk_of_an_earlier_one(rt: HostRuntime) {
    assert!(rt; matches!(outlasts_a_stop(rt.alloc()), Ok(true)));
}

const EPOCH: [u8; 9] = [1, 1, 0, 0, 0, 0, 0, 0, 0];

// Why no master can be up over a log of one record, on a disk that lets so many calls pass.
fn fault_over(alloc: Global, record: &[u8], calls: u64) -> Option<OpeningFault> {
    let mut disk = FuseDisk::new(disk_with(alloc, 1, &[], &[record])?);
    disk.arm(calls);
    open_master(alloc, disk).err()
}

// The disk fails, no record has this tag, or no master writes the record there: it gives a file that there isn't a chunk.
#[test]
fn a_master_is_not_opened_over_each_disk(rt: HostRuntime) {
    let alloc = rt.alloc();
    let failed = OpeningFault::Log(OperationLogFault::Device);
    let damaged = OpeningFault::Log(OperationLogFault::Damaged);
    let down = OpeningFault::Down(DownCause::Memory);
    assert!(rt; fault_over(alloc, &EPOCH, 1_000).is_none());
    assert!(rt; fault_over(alloc, &EPOCH, 0) == Some(failed));
    assert!(rt; fault_over(alloc, &[99], 1_000) == Some(damaged));
    assert!(rt; fault_over(alloc, &ADD_CHUNK, 1_000) == Some(down));
}
