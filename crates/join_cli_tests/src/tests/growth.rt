// Waves behind which each joiner splits into four.

ghost use Rattle.std.specs.Prelude.{◌≡◌, IfOk};

use super::{NEVER, ROOM, failing_sink, main_status};
use join_rows::{ListSink, MapShelf};
use std::alloc::{AllocError, Global};
use std::process::Abort;
use std::sync::Wait;
use std::test::Fail;
use std::thread::Threads;

const R: &str = "id,x\n1,10\n2,20\n3,30\n";

const S: &str = "id,y\n1,20\n2,30\n3,20\n";

const R2: &str = "id,x\n4,20\n";

const S2: &str = "id,y\n4,30\n";

const BOTH: &str = "2,1\n2,3\n3,2\n3,4\n4,1\n4,3\n";

// A shelf with two waves, of which the first has this file `s`, and with files of a third.
fn shelf_of_waves(alloc: Global, s: &str) -> Result<MapShelf, AllocError>
    ensures { IfOk result (λ shelf. shelf.faults ≡ 0) }
{
    let mut wide = String::from_str(alloc, "id,y\n")?;
    for _ in 0..40 {
        wide.push_str("9,99\n")?;
    }
    let mut shelf = MapShelf::new(alloc);
    shelf.add("r", R.as_bytes())?;
    shelf.add("s", s.as_bytes())?;
    shelf.add("r2", R2.as_bytes())?;
    shelf.add("s2", S2.as_bytes())?;
    shelf.add("r3", b"id,x\n")?;
    shelf.add("s3", wide.as_bytes())?;
    Ok(shelf)
}

// The words end well over these files, and what they write begins so.
fn begins<R: Abort + Threads + Wait + Sync>(
    rt: &R,
    alloc: Global,
    line: &str,
    s: &str,
    written: &str,
) -> Result<(), AllocError> {
    let mut shelf = shelf_of_waves(alloc, s)?;
    let mut sink = failing_sink(alloc, ROOM, NEVER)?;
    let mut errors = ListSink::new(alloc, 200)?;
    let status = main_status(rt, alloc, line, &mut shelf, &mut sink, &mut errors)?;
    assert!(rt; errors.written().is_empty(), "{line} tells nothing");
    assert!(rt;
        sink.written().starts_with(written.as_bytes()),
        "{line} writes"
    );
    assert!(rt; status == 0, "{line}");
    Ok(())
}

#[test]
fn a_growth_answers_what_waves_do(rt: HostRuntime) -> Result<(), Fail> {
    let alloc = rt.alloc();
    for options in ["--seed|1", "--replay|7", "--weight-r|3"] {
        let line = format!(in alloc; "jm|--joiners|1|--grow|1|{options}|--on|r.x = s.y|r|s|r2|s2")?;
        begins(&rt, alloc, line.as_str(), S, BOTH)?;
    }
    Ok(())
}

#[test]
fn a_report_tells_of_the_growth(rt: HostRuntime) -> Result<(), Fail> {
    let alloc = rt.alloc();
    let line = "jm|--joiners|1|--grow|1|--report|--on|r.x = s.y|r|s|r2|s2";
    let told = "input 4 4\ngrow 2 2 placed 12\nfinal 2 2 copies 16 best 16\n";
    let written = format!(in alloc; "{BOTH}{told}")?;
    begins(&rt, alloc, line, S, written.as_str())?;
    Ok(())
}

#[test]
fn stores_are_placed_anew_where_a_side_is_empty(rt: HostRuntime) -> Result<(), Fail> {
    let alloc = rt.alloc();
    let line = "jm|--joiners|1|--grow|1|--report|--on|r.x = s.y|r|s|r2|s2";
    let written = "3,1\ninput 4 1\ngrow 4 1 placed 3\nfinal 4 1 copies 8 best 8\n";
    begins(&rt, alloc, line, "id,y\n", written)?;
    Ok(())
}

#[test]
fn sixty_four_joiners_grow_to_256(rt: HostRuntime) -> Result<(), Fail> {
    let alloc = rt.alloc();
    let line = "jm|--joiners|64|--grow|1|--replay|7|--on|r.x = s.y|r|s|r2|s2";
    begins(&rt, alloc, line, S, BOTH)?;
    Ok(())
}

#[test]
fn a_grown_grid_moves_rows(rt: HostRuntime) -> Result<(), Fail> {
    let alloc = rt.alloc();
    let line = "jm|--joiners|1|--grow|1|--report|--on|r.x = s.y|r|s|r2|s2|r3|s3";
    let told = "input 4 44\ngrow 2 2 placed 12\ngrid 1 1 4 moved ";
    let written = format!(in alloc; "{BOTH}{told}")?;
    begins(&rt, alloc, line, S, written.as_str())?;
    Ok(())
}
