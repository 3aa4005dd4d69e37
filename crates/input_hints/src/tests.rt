use crate::*;
use std::io::Read;
use std::test::Fail;

const FLEET: &[u8] =
    b"\xef\xbb\xbfvehicle,seats,node,second\r\n\r\n1,4,1,0\n\"2\",\"4\n\",99,0\n\n3,16,1,0";

#[test]
fn rows_have_their_lines(rt: HostRuntime) -> Result<(), Fail> {
    let mut rows = RowReader::of_file(FLEET.bytes());
    for (number, line, count) in [(0, 1, 4), (1, 3, 4), (2, 4, 4), (3, 7, 4)] {
        let row = rows.next_row(rt.alloc())?.ok_or("a row is missing")?;
        assert_eq!(rt; row.number, number);
        assert_eq!(rt; row.line, line);
        assert_eq!(rt; row.field_count(), count);
    }
    assert!(rt; rows.next_row(rt.alloc())?.is_none());
    Ok(())
}

fn hint_of(rt: &HostRuntime, number: u64, wrong: Wrong) -> Result<String, Fail> {
    let mut rows = RowReader::of_file(FLEET.bytes());
    let row = row_numbered(rt.alloc(), &mut rows, number)?;
    Ok(row_hint(
        rt.alloc(),
        "fleet.csv",
        InputTable::Fleet,
        number,
        &wrong,
        row.as_ref(),
    )?)
}

#[test]
fn rows_are_told(rt: HostRuntime) -> Result<(), Fail> {
    let hint = hint_of(&rt, 2, Wrong::UnknownNode)?;
    let wanted = "fleet.csv, line 4: \"2\",\"4\\x0a\",99,0: node 99 is not in the network";
    assert_eq!(rt; hint.as_str(), wanted);
    let hint = hint_of(&rt, 3, Wrong::Seats)?;
    assert_eq!(rt;
        hint.as_str(),
        "fleet.csv, line 7: 3,16,1,0: seats are 1 to 10"
    );
    let hint = hint_of(&rt, 4, Wrong::Seats)?;
    assert_eq!(rt; hint.as_str(), "fleet.csv, row 4: seats are 1 to 10");
    Ok(())
}

#[test]
fn arguments_are_told(rt: HostRuntime) -> Result<(), Fail> {
    let alloc = rt.alloc();
    for (argument, wanted) in [
        ("--wait=3", "--wait=3: did you mean wait=3?"),
        ("wiat=3", "wiat=3: did you mean wait=3?"),
        ("wait", "wait: did you mean wait=VALUE?"),
    ] {
        let mut arguments = Vec::new(alloc);
        arguments.push(String::from_str(alloc, "run")?)?;
        arguments.push(String::from_str(alloc, argument)?)?;
        let hint = argument_hint(alloc, &arguments, 2, ArgumentWrong::UnknownKey)?;
        assert_eq!(rt; hint.as_str(), wanted);
    }
    Ok(())
}
