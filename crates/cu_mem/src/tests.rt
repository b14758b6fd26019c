//! What the contracts don't say: that calls succeed with ample memory.
use super::*;
use cu_store::{Got, Key, get_tries, has_tries, put_tries, remove_tries};
use std::test::Fail;

#[test]
fn a_call_is_tried_again(rt: HostRuntime) -> Result<(), Fail> {
    let a = Key::make("y/c/0").ok_or("a key of at most 96 bytes")?;
    let mut buf = [0; 4];
    for (times, want) in [(2, true), (3, false)] {
        for call in [
            CallKind::Get,
            CallKind::Has,
            CallKind::Put,
            CallKind::Remove,
        ] {
            let rule = Rule {
                call,
                key: None,
                skip: 0,
                times,
                land: None,
            };
            let mut depot = MemDepot::make(rt.alloc(), Script::one(rule));
            let works = match call {
                CallKind::Get => get_tries(&mut depot, &a, &mut buf, 2) == Ok(Got::Absent),
                CallKind::Has => has_tries(&mut depot, &a, 2) == Ok(false),
                CallKind::Put => put_tries(&mut depot, &a, &[5], 2) == Ok(()),
                CallKind::Remove => remove_tries(&mut depot, &a, 2) == Ok(()),
            };
            assert_eq!(rt; works, want, "{call:?} fails {times} times");
            assert_eq!(rt; depot.calls(), 3);
        }
    }
    Ok(())
}
