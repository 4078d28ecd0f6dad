use crate::script::answered;
use std::alloc::Global;
use std::fmt::Write;
use std::process::Abort;
use std::test::Fail;

const NO_MARK: &str = "refused 02 no such mark on the chart";

const SAME_ENDS: &str = "refused 03 a leg joins two different marks";

const OUT_OF_LIMITS: &str = "refused 04 a leg has 0.1 to 6000 miles and 0 to 99 locks";

const LEGS_FULL: &str = "refused 05 the chart has 1024 legs already";

const JOINED: &str = "refused 06 a leg joins these marks already";

const NO_LEG: &str = "refused 07 no such leg on the chart";

const STANDS: &str = "refused 08 the leg is closed, or open, already";

// The last line that the office writes for a script.
fn last(heap: Global, script: &[u8]) -> Result<String, Fail> {
    let out = answered(heap, script)?;
    Ok(String::from_str(heap, out.as_str().lines().last().unwrap_or(""))?)
}

// Each line comes after three marks, and is answered so.
fn check_answers(rt: &impl Abort, heap: Global, table: &[(&str, &str)]) -> Result<(), Fail> {
    for (line, answer) in table {
        let mut script = String::from_str(heap, "mark\nmark\nmark\n")?;
        script.push_str(line)?;
        assert_eq!(rt;
            last(heap, script.as_bytes())?.as_str(),
            *answer,
            "{}",
            *line
        );
    }
    Ok(())
}

#[test]
fn limits_of_a_leg(rt: HostRuntime) -> Result<(), Fail> {
    let table = [
        ("leg 0 1 0.1 0", "leg 0"),
        ("leg 0 1 6000 99", "leg 0"),
        ("leg 0 1 6000.0 99", "leg 0"),
        ("leg 0 1 0 0", OUT_OF_LIMITS),
        ("leg 0 1 6000.1 0", OUT_OF_LIMITS),
        ("leg 0 1 1 100", OUT_OF_LIMITS),
        ("leg 0 1 4294967296 0", OUT_OF_LIMITS),
        ("leg 0 1 1 4294967296", OUT_OF_LIMITS),
    ];
    check_answers(&rt, rt.alloc(), &table)
}

#[test]
fn refusals_and_their_order(rt: HostRuntime) -> Result<(), Fail> {
    let table = [
        ("home 3", NO_MARK),
        ("home 4294967296", NO_MARK),
        ("pivot 3 yes", NO_MARK),
        ("leg 0 9 0 0", NO_MARK),
        ("leg 9 9 1 0", NO_MARK),
        ("leg 1 1 0 0", SAME_ENDS),
        ("leg 0 1 1 0\nleg 1 0 0 0", OUT_OF_LIMITS),
        ("leg 0 1 1 0\nleg 1 0 1 0", JOINED),
        ("leg 0 1 1 0\nclose 0\nleg 0 1 1 0", JOINED),
        ("close 0", NO_LEG),
        ("open 4294967296", NO_LEG),
        ("leg 0 1 1 0\nclose 0\nclose 0", STANDS),
        ("leg 0 1 1 0\nopen 0", STANDS),
    ];
    check_answers(&rt, rt.alloc(), &table)
}

#[test]
fn accepted_calls(rt: HostRuntime) -> Result<(), Fail> {
    let table = [
        ("leg 0 1 1 0\nclose 0", "closed 0"),
        ("leg 0 1 1 0\nclose 0\nopen 0", "opened 0"),
        ("leg 0 1 1 0\nleg 1 2 1 0", "leg 1"),
        ("home 2\nhome 2", "home 2"),
        ("pivot 2 yes\npivot 2 yes", "pivot 2 yes"),
        ("pivot 2 no", "pivot 2 no"),
        ("mark", "mark 3"),
    ];
    check_answers(&rt, rt.alloc(), &table)
}

#[test]
fn lines_that_are_no_commands(rt: HostRuntime) -> Result<(), Fail> {
    let table = [
        ("moor 3", "? line 4 no such command"),
        ("mark 3", "? line 4 write it as: mark"),
        (
            "leg 0 1 1.25 0",
            "? line 4 write it as: leg A B MILES LOCKS",
        ),
        ("leg 0 1 1. 0", "? line 4 write it as: leg A B MILES LOCKS"),
        ("leg 0 1 .5 0", "? line 4 write it as: leg A B MILES LOCKS"),
        ("leg 0 1 -1 0", "? line 4 write it as: leg A B MILES LOCKS"),
        ("leg 0 1 1", "? line 4 write it as: leg A B MILES LOCKS"),
        ("close one", "? line 4 write it as: close N"),
        ("open", "? line 4 write it as: open N"),
        ("home +1", "? line 4 write it as: home N"),
        ("pivot 1 maybe", "? line 4 write it as: pivot N yes|no"),
        (
            "measure hours",
            "? line 4 write it as: measure length|locks",
        ),
        (
            "measure length",
            "? line 4 measure must be the first command",
        ),
    ];
    check_answers(&rt, rt.alloc(), &table)
}

#[test]
fn full_charts(rt: HostRuntime) -> Result<(), Fail> {
    let heap = rt.alloc();
    let mut script = String::new(heap);
    for _ in 0..256 {
        script.push_str("mark\n")?;
    }
    assert_eq!(rt; last(heap, script.as_bytes())?.as_str(), "mark 255");
    script.push_str("mark\n")?;
    assert_eq!(rt;
        last(heap, script.as_bytes())?.as_str(),
        "refused 01 the chart has 256 marks already"
    );
    for b in 8..136 {
        for a in 0..8 {
            writeln!(script, "leg {a} {b} 1 0")?;
        }
    }
    assert_eq!(rt; last(heap, script.as_bytes())?.as_str(), "leg 1023");
    script.push_str("leg 0 8 1 0\n")?;
    assert_eq!(rt; last(heap, script.as_bytes())?.as_str(), LEGS_FULL);
    Ok(())
}

#[test]
fn odd_input(rt: HostRuntime) -> Result<(), Fail> {
    let heap = rt.alloc();
    assert_eq!(rt; answered(heap, b"")?.as_str(), "");
    assert_eq!(rt; answered(heap, b"\n  \n# mark\n #mark\n")?.as_str(), "");
    assert_eq!(rt;
        answered(heap, b"\xff\xfe\x00mark\nmark")?.as_str(),
        "? line 1 no such command\nmark 0\n"
    );
    assert_eq!(rt;
        answered(heap, b"measure locks\r\nmark\r\n")?.as_str(),
        "measure locks\nmark 0\n"
    );
    assert_eq!(rt;
        answered(heap, b"x\nmeasure length\nmark")?.as_str(),
        "? line 1 no such command\nmeasure length\nmark 0\n"
    );
    Ok(())
}

#[test]
fn much_input(rt: HostRuntime) -> Result<(), Fail> {
    let heap = rt.alloc();
    let mut lines = String::new(heap);
    let mut line = String::new(heap);
    for _ in 0..10_000 {
        lines.push_str("mark\n")?;
        line.push_str("mark mark ")?;
    }
    assert_eq!(rt;
        answered(heap, lines.as_bytes())?.as_str().lines().count(),
        10_000
    );
    assert_eq!(rt; line.len(), 100_000);
    assert_eq!(rt;
        answered(heap, line.as_bytes())?.as_str(),
        "? line 1 write it as: mark\n"
    );
    Ok(())
}
