//! The name step on the name calls of worked scripts. What is expected is what the scripts print, or the table of refusals.

use gfs_types::answer::Answer;
use gfs_types::call::Call;
use gfs_types::config::Config;
use gfs_types::ids::FileId;
use gfs_types::lists::Text;
use gfs_types::no_memory::NoMemory;
use machine_programs::name_table::NameTable;
use machine_programs::outcome::NameOutcome;
use std::alloc::Global;
use std::io::{self, Write};
use std::test::Fail;

/// A name call by its line in a script.
fn call_of(alloc: Global, line: &str) -> Result<Call, NoMemory> {
    let (word, paths) = line.split_once(' ').unwrap_or_default();
    let (path, to) = paths.split_once(' ').unwrap_or((paths, ""));
    let path = Text::from_str(path, alloc)?;
    Ok(match word {
        "mkdir" => Call::Mkdir(path),
        "rmdir" => Call::Rmdir(path),
        "create" => Call::Create(path, None),
        "open" => Call::Open(path),
        "delete" => Call::Delete(path),
        "rename" => {
            let to = Text::from_str(to, alloc)?;
            Call::Rename(path, to)
        }
        "snapshot" => {
            let to = Text::from_str(to, alloc)?;
            Call::Snapshot(path, to)
        }
        _ => Call::List(path),
    })
}

/// What a call came to, and of a file that was opened its id.
fn write_outcome(text: &mut Vec<u8>, outcome: &NameOutcome) -> io::Result<()> {
    match outcome {
        NameOutcome::Opens(FileId(id)) => write!(text, "opens {id}"),
        NameOutcome::Replies(Answer::Done) => write!(text, "done"),
        NameOutcome::Replies(Answer::Refused(refusal)) => write!(
            text,
            "refused {}",
            refusal.name()
        ),
        NameOutcome::Replies(Answer::Names(names)) => {
            write!(text, "names")?;
            for name in names.as_slice() {
                write!(text, " {name}")?;
            }
            Ok(())
        }
        NameOutcome::Replies(_) => write!(text, "something else"),
    }
}

// What owns a call or an outcome has one way out, and calls `drop` there: a drop at the end of a scope is proved anew at each place.
fn comes_to(table: &mut NameTable, alloc: Global, line: &str, wanted: &str) -> Result<bool, Fail> {
    let call = call_of(alloc, line)?;
    let met = table.name_step(&call, 5000);
    drop(call);
    let outcome = met?;
    let mut text = Vec::new(alloc);
    let written = write_outcome(&mut text, &outcome);
    drop(outcome);
    written?;
    Ok(text.as_slice() == wanted.as_bytes())
}

/// The first of these calls that doesn't come to what stands behind its arrow.
fn first_wrong(
    table: &mut NameTable,
    alloc: Global,
    rows: &'static str,
) -> Result<Option<&'static str>, Fail> {
    for row in rows.lines() {
        let (line, wanted) = row.split_once(" -> ").unwrap_or_default();
        if !comes_to(table, alloc, line, wanted)? {
            return Ok(Some(row));
        }
    }
    Ok(None)
}

/// The same in a new table.
fn wrong(alloc: Global, rows: &'static str) -> Result<Option<&'static str>, Fail> {
    let mut table = NameTable::new(alloc, Config::default())?;
    let first = first_wrong(&mut table, alloc, rows);
    drop(table);
    first
}

const DIRECTORIES_AND_FILES: &str = "mkdir /d -> done\n\
    create /d/f -> done\n\
    open /d/f -> opens 1\n\
    rmdir /d -> refused NotEmpty\n\
    rename /d/f /g -> done\n\
    rmdir /d -> done\n\
    rmdir /g -> refused NotDir\n\
    list / -> names .gone/ g\n\
    rename /g /g -> refused Exists\n\
    rename /g /.gone/x -> refused Reserved\n\
    create /x/y -> refused NoParent\n\
    mkdir /g -> refused Exists\n\
    open /g -> opens 1\n";

/// A deleted file goes to a hidden name with the moment 5000 and its id, and comes back by a new name.
const DELETION: &str = "create /f -> done\n\
    delete /f -> done\n\
    open /f -> refused NotFound\n\
    list /.gone -> names 00000000000000005000-0000000000000001\n\
    open /.gone/00000000000000005000-0000000000000001 -> opens 1\n\
    delete /.gone/00000000000000005000-0000000000000001 -> refused Reserved\n\
    rename /.gone/00000000000000005000-0000000000000001 /g -> done\n\
    open /g -> opens 1\n";

/// The copies get new ids in the order of their paths: `/e/a` has 3 and `/e/b` has 4.
const SNAPSHOTS: &str = "mkdir /d -> done\n\
    create /d/b -> done\n\
    create /d/a -> done\n\
    snapshot /d /e -> done\n\
    open /e/a -> opens 3\n\
    open /d/a -> opens 2\n\
    delete /e/b -> done\n\
    list /.gone -> names 00000000000000005000-0000000000000004\n\
    list / -> names .gone/ d/ e/\n\
    snapshot /d /d/x -> refused Inside\n\
    snapshot / /x -> refused Reserved\n\
    snapshot /d /e -> refused Exists\n\
    snapshot /no /x -> refused NotFound\n\
    snapshot /d /no/x -> refused NoParent\n\
    snapshot /d/b /c -> done\n\
    open /c -> opens 5\n";

const BAD_PATHS_COME_FIRST: &str = "mkdir /x//y -> refused BadPath\n\
    mkdir /.. -> refused BadPath\n\
    mkdir /a/ -> refused BadPath\n\
    rename /no x -> refused BadPath\n\
    mkdir / -> refused Exists\n\
    mkdir /.gone -> refused Reserved\n\
    mkdir /.gone/x -> refused Reserved\n\
    rmdir / -> refused Reserved\n\
    open / -> refused NotFile\n\
    delete /no -> refused NotFound\n";

#[test]
fn name_calls_of_scripts(rt: HostRuntime) -> Result<(), Fail> {
    for rows in [
        DIRECTORIES_AND_FILES,
        DELETION,
        SNAPSHOTS,
        BAD_PATHS_COME_FIRST,
    ] {
        let row = wrong(rt.alloc(), rows)?;
        assert!(rt; row.is_none(), "{}", row.unwrap_or_default());
    }
    Ok(())
}
