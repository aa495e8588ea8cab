//! The groups after each verb.
use super::*;
use scalar_value::{Mem, Or, Seq, Text};
use std::alloc::Global;
use std::process::Abort;
use std::test::Fail;

fn names_of(alloc: Global, names: &[&str]) -> Mem<Seq<Text>> {
    let mut made = Seq::new(alloc);
    for name in names {
        made.push(Text::of(alloc, name)?)?;
    }
    Ok(made)
}

fn pairs_of(alloc: Global, pairs: &[(&str, &str)]) -> Mem<Seq<(Text, Text)>> {
    let mut made = Seq::new(alloc);
    for (old, new) in pairs {
        made.push((Text::of(alloc, old)?, Text::of(alloc, new)?))?;
    }
    Ok(made)
}

fn expect_names<R: Abort>(rt: &R, found: &Seq<Text>, wanted: &[&str]) {
    assert_eq!(rt; found.len(), wanted.len());
    for (name, text) in found.as_slice().iter().zip(wanted) {
        assert_eq!(rt; name.as_str(), *text);
    }
}

#[test]
fn summaries_drop_groups(rt: HostRuntime) -> Result<(), Fail> {
    let alloc = rt.alloc();
    let table = [
        (
            ["region", "month"].as_slice(),
            Dropping::DropLast,
            ["region"].as_slice(),
        ),
        (
            ["region", "month"].as_slice(),
            Dropping::Drop,
            [].as_slice(),
        ),
        (
            ["region", "month"].as_slice(),
            Dropping::Keep,
            ["region", "month"].as_slice(),
        ),
        (["g"].as_slice(), Dropping::DropLast, [].as_slice()),
        ([].as_slice(), Dropping::DropLast, [].as_slice()),
        ([].as_slice(), Dropping::Keep, [].as_slice()),
    ];
    for (groups, how, wanted) in table {
        let groups = names_of(alloc, groups)?;
        expect_names(&rt, &after_summarise(alloc, &groups, how)?, wanted);
    }
    Ok(())
}

#[test]
fn groups_are_renamed(rt: HostRuntime) -> Result<(), Fail> {
    let alloc = rt.alloc();
    let table = [
        (["g", "h"].as_slice(), ("g", "k"), ["k", "h"].as_slice()),
        (["g", "h"].as_slice(), ("h", "k"), ["g", "k"].as_slice()),
        (["g", "h"].as_slice(), ("x", "y"), ["g", "h"].as_slice()),
        (["g"].as_slice(), ("g", "g"), ["g"].as_slice()),
        ([].as_slice(), ("g", "k"), [].as_slice()),
    ];
    for (groups, (from, to), wanted) in table {
        let groups = names_of(alloc, groups)?;
        let from = Text::of(alloc, from)?;
        let to = Text::of(alloc, to)?;
        expect_names(&rt, &after_rename(alloc, &groups, &from, &to)?, wanted);
    }
    Ok(())
}

#[test]
fn groups_stay_in_a_selection(rt: HostRuntime) -> Result<(), Fail> {
    let alloc = rt.alloc();
    let table = [
        (
            ["g", "h"].as_slice(),
            [("x", "x")].as_slice(),
            ["g", "h"].as_slice(),
        ),
        (
            ["g", "h"].as_slice(),
            [("h", "k"), ("g", "g")].as_slice(),
            ["g", "k"].as_slice(),
        ),
        (
            ["g"].as_slice(),
            [("x", "y"), ("g", "k")].as_slice(),
            ["k"].as_slice(),
        ),
        ([].as_slice(), [("g", "k")].as_slice(), [].as_slice()),
    ];
    for (groups, kept, wanted) in table {
        let groups = names_of(alloc, groups)?;
        let kept = pairs_of(alloc, kept)?;
        expect_names(&rt, &after_select(alloc, &groups, &kept)?, wanted);
    }
    Ok(())
}

#[test]
fn by_groups_what_has_no_groups(rt: HostRuntime) -> Result<(), Fail> {
    let alloc = rt.alloc();
    let table = [
        ([].as_slice(), ["g"].as_slice(), Some(["g"].as_slice())),
        (
            [].as_slice(),
            ["g", "h", "g"].as_slice(),
            Some(["g", "h"].as_slice()),
        ),
        ([].as_slice(), [].as_slice(), Some([].as_slice())),
        (["g"].as_slice(), ["h"].as_slice(), None),
        (["g"].as_slice(), [].as_slice(), None),
    ];
    for (groups, by, wanted) in table {
        let groups = names_of(alloc, groups)?;
        let by = names_of(alloc, by)?;
        match (add_by(alloc, &groups, &by), wanted) {
            (Ok(found), Some(names)) => expect_names(&rt, &found, names),
            (Err(Or::Fault(GroupFault::ByOnGroups)), None) => {}
            _ => assert!(rt; false, "another answer"),
        }
    }
    Ok(())
}
