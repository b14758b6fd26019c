//! Three threads over shared cells, and over a real folder, which the test makes and removes.
ghost use Rattle.std.specs.Prelude.{IfOk};
ghost use Rattle.test_depots.specs.Pairs.{IsPair};

use crate::pair::Pair;
use crate::shared_keys::exchange;
use crate::watched::Watched;
use cu_dir::DirDepot;
use cu_mem::{MemDepot, Script};
use cu_store::{Depot, Got};
use std::test::Fail;
use std::{env, fs, process};

/// A pair of keys whose files lie in one folder.
fn pair() -> Result<Pair, Fail>
    ensures { IfOk result (λ pair. IsPair pair.a pair.b pair.bytes) }
{
    Ok(Pair::make("x/c/0", "x/c/1", 7).ok_or("two keys of at most 96 bytes")?)
}

/// An empty folder of the system's, for this test alone.
fn folder_for(rt: &HostRuntime) -> Result<String, Fail> {
    let temp = env::temp_dir(rt)?;
    let id = process::id(rt.process());
    let folder = format!(in rt.alloc(); "{}/test_depots_{id}", temp.as_str())?;
    let _ = fs::remove_dir_all(rt, folder.as_str());
    Ok(folder)
}

#[test]
fn three_threads_share_two_cells(rt: HostRuntime) -> Result<(), Fail> {
    let pair = pair()?;
    let mut depot = Watched::new(rt.alloc(), MemDepot::make(rt.alloc(), Script::none()));
    let all = exchange(&rt, rt.alloc(), &mut depot, &pair, 1_000).ok_or("each put is Ok")?;
    assert!(rt; all, "each get gives the promised bytes");
    let calls = depot.calls().ok_or("memory for the calls")?;
    assert_eq!(rt; calls.len(), 5_003, "each call is written down");
    assert_eq!(rt;
        depot.depot.calls(),
        5_003,
        "the calls of each pass are counted"
    );
    for key in [&pair.a, &pair.b] {
        assert!(rt;
            depot.depot.lookup(key) == Some(&pair.bytes[..]),
            "it is given back"
        );
    }
    Ok(())
}

#[test]
fn three_threads_share_a_folder(rt: HostRuntime) -> Result<(), Fail> {
    let pair = pair()?;
    let folder = folder_for(&rt)?;
    let mut depot = DirDepot::make(&rt, rt.alloc(), folder.as_str())?;
    let all = exchange(&rt, rt.alloc(), &mut depot, &pair, 100).ok_or("each put is Ok")?;
    assert!(rt; all, "each get gives the promised bytes");
    assert_eq!(rt; depot.faults(), 0);
    for key in [&pair.a, &pair.b] {
        let mut buf = [0; 64];
        assert!(rt;
            depot.get(key, &mut buf) == Ok(Got::Held(64)),
            "its file is there"
        );
        assert!(rt; buf == pair.bytes, "it has its bytes");
    }
    let names = format!(in rt.alloc(); "{folder}/x/c")?;
    let files = fs::read_dir(&rt, names.as_str())?.count();
    assert_eq!(rt; files, 2, "no new file is left");
    fs::remove_dir_all(&rt, folder.as_str())?;
    Ok(())
}
