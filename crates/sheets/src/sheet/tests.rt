use super::*;
use crate::notice::{Notice, Section};
use std::process::Abort;
use std::test::Fail;

const PREMISE: Section = Section::Premise;

const CALLS: Section = Section::Calls;

// Sees that a sheet is refused, at this line and field, by this number.
fn refused(
    rt: &(impl Abort + AllocGlobal),
    bytes: &[u8],
    section: Section,
    line: u32,
    field: u32,
    number: u8,
) -> Result<(), Fail> {
    let notice = Notice {
        section,
        line,
        field,
        number,
    };
    match read_sheet(rt.alloc(), bytes) {
        Ok(_) => Err(Fail::new("the sheet is not refused")),
        Err(fault) => {
            assert_eq!(rt; fault.notice(), Some(notice));
            Ok(())
        },
    }
}

#[test]
fn reads_a_sheet(rt: HostRuntime) -> Result<(), Fail> {
    let text = b"1 PREMISE\nE-12 5 100 99500 7\n3 CALLS\nM 108\nR 168 4294967295\nC 8\n";
    let Ok(sheet) = read_sheet(rt.alloc(), text) else {
        return Err(Fail::new("the sheet is refused"));
    };
    assert_eq!(rt; sheet.opening.digits, 5);
    assert_eq!(rt; sheet.opening.day, 100);
    assert_eq!(rt; sheet.opening.register, 99_500);
    assert_eq!(rt; sheet.opening.customer, 7);
    let calls = sheet.calls.as_slice();
    assert_eq!(rt; calls.len(), 3);
    let [
        Call::Miss { day: missed },
        Call::Read { day, register },
        Call::Move { customer },
    ] = calls
    else {
        return Err(Fail::new("the calls are others"));
    };
    assert_eq!(rt; *missed, 108);
    assert_eq!(rt; *day, 168);
    assert_eq!(rt; *register, 4_294_967_295);
    assert_eq!(rt; *customer, 8);
    Ok(())
}

#[test]
fn refuses_count_lines(rt: HostRuntime) -> Result<(), Fail> {
    refused(&rt, b"", PREMISE, 1, 0, 8)?;
    refused(&rt, b"0 PREMISE\n", PREMISE, 1, 0, 8)?;
    refused(&rt, b"1 PREMISE", PREMISE, 1, 0, 8)?;
    refused(&rt, b"1 PREMISE \n", PREMISE, 1, 0, 8)?;
    refused(&rt, b"1 PREMISE\n", PREMISE, 2, 0, 8)?;
    refused(&rt, b"1 PREMISE\nE-12 5 1 2 3\n241 CALLS\n", CALLS, 3, 0, 8)?;
    refused(
        &rt,
        b"1 PREMISE\nE-12 5 1 2 3\n2 CALLS\nM 1\nM 2",
        CALLS,
        5,
        0,
        8,
    )
}

#[test]
fn refuses_lines(rt: HostRuntime) -> Result<(), Fail> {
    refused(&rt, b"1 PREMISE\nE-12 5 1 2 x 4\n", PREMISE, 2, 0, 7)?;
    refused(&rt, b"1 PREMISE\nE-13 5 1 2 x\n", PREMISE, 2, 1, 6)?;
    refused(&rt, b"1 PREMISE\nE-12 5 1 2 x\n", PREMISE, 2, 5, 6)?;
    refused(
        &rt,
        b"1 PREMISE\nE-12 5 1 2 3\n1 CALLS\nM  108\n",
        CALLS,
        4,
        0,
        7,
    )?;
    refused(
        &rt,
        b"1 PREMISE\nE-12 5 1 2 3\n1 CALLS\nM 108\r\n",
        CALLS,
        4,
        2,
        6,
    )?;
    refused(
        &rt,
        b"1 PREMISE\nE-12 5 1 2 3\n1 CALLS\nR 1 4294967296\n",
        CALLS,
        4,
        3,
        6,
    )?;
    refused(
        &rt,
        b"1 PREMISE\nE-12 5 1 2 3\n1 CALLS\nm 108\n",
        CALLS,
        4,
        0,
        7,
    )
}

#[test]
fn refuses_sheets(rt: HostRuntime) -> Result<(), Fail> {
    refused(
        &rt,
        b"1 PREMISE\nE-12 5 1 2 3\n0 CALLS\n\n",
        Section::Sheet,
        0,
        0,
        9,
    )?;
    let long = [b'\n'; 8_193];
    refused(&rt, &long, Section::Sheet, 0, 0, 9)?;
    refused(&rt, &long[..8_192], PREMISE, 1, 0, 8)
}
