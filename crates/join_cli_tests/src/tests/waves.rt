// Files of several waves.

ghost use Rattle.std.specs.Prelude.{◌≡◌, IfOk};

use super::{NEVER, ROOM, failing_sink, main_status, shelf_of};
use join_rows::{ListSink, MapShelf};
use std::alloc::{AllocError, Global};
use std::process::Abort;
use std::sync::Wait;
use std::test::Fail;
use std::thread::Threads;

const R: &str = "id,x\n1,10\n2,20\n3,30\n";

const S: &str = "id,y\n1,20\n2,30\n3,20\n";

const FIRST: &str = "2,1\n2,3\n3,2\n";

const BOTH: &str = "2,1\n2,3\n3,2\n3,4\n4,1\n4,3\n";

// A shelf with the files `r`, `s` of the first wave and these of the second.
fn shelf_of_waves(alloc: Global, r2: &str, s2: &str) -> Result<MapShelf, AllocError>
    ensures { IfOk result (λ shelf. shelf.faults ≡ 0) }
{
    let mut shelf = shelf_of(alloc, R, S)?;
    shelf.add("r2", r2.as_bytes())?;
    shelf.add("s2", s2.as_bytes())?;
    Ok(shelf)
}

// The words end with this status over these files of a second wave, put this line on standard error and write these
// bytes.
fn waves_end<R: Abort + Threads + Wait + Sync>(
    rt: &R,
    alloc: Global,
    line: &str,
    files: (&str, &str),
    wanted: (u8, &str, &str),
) -> Result<(), AllocError> {
    let mut shelf = shelf_of_waves(alloc, files.0, files.1)?;
    let mut sink = failing_sink(alloc, ROOM, NEVER)?;
    let mut errors = ListSink::new(alloc, 200)?;
    let status = main_status(rt, alloc, line, &mut shelf, &mut sink, &mut errors)?;
    let (wanted_status, told, written) = wanted;
    assert!(rt; errors.written() == told.as_bytes(), "{line} tells {told}");
    assert!(rt; sink.written() == written.as_bytes(), "{line} writes");
    assert!(rt; status == wanted_status, "{line}");
    Ok(())
}

// The words of this line before those of two waves write these bytes.
fn writes<R: Abort + Threads + Wait + Sync>(
    rt: &R,
    alloc: Global,
    options: &str,
    files: (&str, &str),
    written: &str,
) -> Result<(), AllocError> {
    let line = format!(in alloc; "jm|{options}|--on|r.x = s.y|r|s|r2|s2")?;
    waves_end(rt, alloc, line.as_str(), files, (0, "", written))
}

#[test]
fn writes_the_pairs_wave_after_wave(rt: HostRuntime) -> Result<(), Fail> {
    let alloc = rt.alloc();
    let files = ("id,x\n4,20\n", "id,y\n4,30\n");
    writes(&rt, alloc, "--seed|1", files, BOTH)?;
    writes(&rt, alloc, "--replay|7", files, BOTH)?;
    writes(
        &rt,
        alloc,
        "--joiners|1|--workers|1|--feeders|1",
        files,
        BOTH,
    )?;
    writes(&rt, alloc, "--fixed|0|--weight-r|3", files, BOTH)?;
    Ok(())
}

#[test]
fn a_wave_without_rows_writes_nothing(rt: HostRuntime) -> Result<(), Fail> {
    let alloc = rt.alloc();
    let files = ("id,x\n", "id,y\n");
    writes(&rt, alloc, "--seed|1", files, FIRST)?;
    writes(&rt, alloc, "--replay|7", files, FIRST)?;
    Ok(())
}

#[test]
fn writes_the_rows_of_waves(rt: HostRuntime) -> Result<(), Fail> {
    let alloc = rt.alloc();
    let rows = "2,20,1,20\n2,20,3,20\n3,30,2,30\n3,30,4,30\n4,20,1,20\n4,20,3,20\n";
    writes(&rt, alloc, "--rows", ("id,x\n4,20\n", "id,y\n4,30\n"), rows)?;
    Ok(())
}

#[test]
fn reports_all_waves_in_one(rt: HostRuntime) -> Result<(), Fail> {
    let alloc = rt.alloc();
    let files = ("id,x\n4,20\n", "id,y\n4,30\n");
    let report = "input 4 4\nfinal 1 1 copies 8 best 8\njoiner 0 held 4 4 made 6\n";
    let wanted = format!(in alloc; "{BOTH}{report}")?;
    writes(&rt, alloc, "--joiners|1|--report", files, wanted.as_str())?;
    writes(
        &rt,
        alloc,
        "--joiners|1|--replay|7|--report",
        files,
        wanted.as_str(),
    )?;
    Ok(())
}

#[test]
fn joins_three_and_four_waves(rt: HostRuntime) -> Result<(), Fail> {
    let alloc = rt.alloc();
    let files = ("id,x\n4,20\n", "id,y\n4,30\n");
    let six = "jm|--on|r.id = s.id|r|s|r2|s2|r2|s2";
    let same = "1,1\n2,2\n3,3\n4,4\n4,5\n5,4\n5,5\n";
    waves_end(&rt, alloc, six, files, (0, "", same))?;
    let eight = "jm|--on|r.id = s.id|--replay|3|r|s|r|s|r|s|r2|s2";
    let many =
        "1,1\n2,2\n3,3\n1,4\n2,5\n3,6\n4,1\n4,4\n5,2\n5,5\n6,3\n6,6\n1,7\n2,8\n3,9\n4,7\n5,8\n6,9\n7,1\n7,4\n7,7\n8,2\n8,5\n8,8\n9,3\n9,6\n9,9\n10,10\n";
    waves_end(&rt, alloc, eight, files, (0, "", many))?;
    Ok(())
}

#[test]
fn another_header_is_refused(rt: HostRuntime) -> Result<(), Fail> {
    let alloc = rt.alloc();
    let line = "jm|--on|r.x = s.y|r|s|r2|s2";
    let files = ("id,x\n4,20\n", "id,z\n4,30\n");
    let told = "input: S2 has another header\n";
    waves_end(&rt, alloc, line, files, (4, told, ""))?;
    Ok(())
}
