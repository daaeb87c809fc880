// The texts of faults. Whole runs stand in `module_top`.
use crate::RunFault;
use std::test::Fail;

#[test]
fn tells_each_fault(rt: HostRuntime) -> Result<(), Fail> {
    let rows = [
        (1, "a vector failed"),
        (
            2,
            "usage: serve, operate, digest, session, vectors, backup, restore or check",
        ),
        (3, "bad frame"),
        (4, "truncated frame"),
        (5, "read failed"),
        (6, "write failed"),
        (7, "out of memory"),
        (8, "file failed"),
        (9, "image too long"),
        (10, "bad line"),
        (11, "bad digest file"),
        (12, "stream too long"),
        (13, "bad key file"),
        (14, "not officer"),
        (15, "bad backup"),
        (16, "not lawful"),
    ];
    for (status, text) in rows {
        let fault = RunFault::of(status).ok_or("a fault")?;
        assert_eq!(rt; format!(in rt.alloc(); "{fault}")?.as_str(), text);
    }
    assert!(rt; RunFault::of(0).is_none());
    assert!(rt; RunFault::of(17).is_none());
    Ok(())
}
