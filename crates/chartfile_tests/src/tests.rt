use crate::{is_sound, tried};
use chart::{Chart, Refusal};
use chartfile::{Cause, Fault, ShortBuffer, load, write};
use measure::by_length::Length;
use std::alloc::Global;
use std::fmt::Write;
use std::process::Abort;
use std::test::Fail;

const SMALL: &str = "01010002FC\n0200000001001E00DF\n050000FB\n7F00037E\n";

fn fault(line: usize, cause: Cause) -> Fault {
    Fault { line, cause }
}

fn refused(line: usize, refusal: Refusal) -> Fault {
    fault(line, Cause::from(refusal))
}

#[test]
fn faults_have_numbers(rt: HostRuntime) {
    assert_eq!(rt; Cause::HasMarks.number(), 16);
    assert_eq!(rt; ShortBuffer.number(), 17);
    assert_eq!(rt; Cause::BadDigits.number(), 18);
    assert_eq!(rt; Cause::BadSum.number(), 19);
    assert_eq!(rt; Cause::BadFrame.number(), 20);
    let refusals = [
        Refusal::MarksFull,
        Refusal::NoSuchMark,
        Refusal::SameEnds,
        Refusal::OutOfLimits,
        Refusal::LegsFull,
        Refusal::JoinedAlready,
    ];
    for (number, refusal) in (1u8..).zip(refusals) {
        assert_eq!(rt; refusal.number(), number);
        assert_eq!(rt; Cause::from(refusal).number(), 21);
    }
}

// Each text is loaded or refused so. What is loaded is written back, and what is refused leaves the chart blank.
fn check_table(
    rt: &impl Abort,
    heap: Global,
    table: &[(&str, Result<(u16, usize), Fault>)],
) -> Result<(), Fail> {
    for (text, outcome) in table {
        assert_eq!(rt; tried(heap, text.as_bytes())?, *outcome, "{}", *text);
        assert!(rt; is_sound(heap, text.as_bytes())?, "{}", *text);
    }
    Ok(())
}

#[test]
fn sound_files(rt: HostRuntime) -> Result<(), Fail> {
    assert_eq!(rt; SMALL.len(), 48);
    let table = [
        (
            "01010002FC\n0200000001001E00DF\n050000FB\n7F00037E\n",
            Ok((2, 1)),
        ),
        ("01010000FE\n7F000180\n", Ok((0, 0))),
        ("01010100FD\n7F000180\n", Ok((256, 0))),
        (
            "01010004FA\n0300000001EA60634F\n0200020001000100FA\n040001FB\n040003F9\n7F00057C\n",
            Ok((4, 2)),
        ),
        ("01010003FB\n040000FC\n050002F9\n7F00037E\n", Ok((3, 0))),
    ];
    check_table(&rt, rt.alloc(), &table)
}

#[test]
fn lines_that_are_no_frames(rt: HostRuntime) -> Result<(), Fail> {
    let table = [
        ("", Err(fault(1, Cause::BadFrame))),
        (
            "01010002FC\n0200000001001E00DF\n050000FB\n7F00037E",
            Err(fault(4, Cause::BadDigits)),
        ),
        (
            "01010002FC\r\n0200000001001E00DF\n050000FB\n7F00037E\n",
            Err(fault(1, Cause::BadDigits)),
        ),
        (
            "01010002fc\n0200000001001E00DF\n050000FB\n7F00037E\n",
            Err(fault(1, Cause::BadDigits)),
        ),
        (
            "\n01010002FC\n0200000001001E00DF\n050000FB\n7F00037E\n",
            Err(fault(1, Cause::BadDigits)),
        ),
        ("01010002F\n", Err(fault(1, Cause::BadDigits))),
        ("0101 002FC\n", Err(fault(1, Cause::BadDigits))),
        (
            "06000000000000000000000000000000000000000000000000000000000000FA\n",
            Err(fault(1, Cause::BadFrame)),
        ),
        (
            "0101010101010101010101010101010101010101010101010101010101010100\n",
            Err(fault(1, Cause::BadSum)),
        ),
        (
            "000000000000000000000000000000000000000000000000000000000000000000\n",
            Err(fault(1, Cause::BadDigits)),
        ),
        (
            "01010002FD\n0200000001001E00DF\n050000FB\n7F00037E\n",
            Err(fault(1, Cause::BadSum)),
        ),
        (
            "01010002FC\n0200000001001E00DF\n050000FC\n7F00037E\n",
            Err(fault(3, Cause::BadSum)),
        ),
        ("01020002FB\n7F000180\n", Err(fault(1, Cause::BadFrame))),
        ("060000FA\n", Err(fault(1, Cause::BadFrame))),
        ("010102FC\n", Err(fault(1, Cause::BadFrame))),
        ("0200000001001E00DF\n", Err(fault(1, Cause::BadFrame))),
        ("7F000081\n", Err(fault(1, Cause::BadFrame))),
        (
            "01010002FC\n0200000001001E00DF\n050000FB\n7F00037E\nx",
            Err(fault(5, Cause::BadDigits)),
        ),
    ];
    check_table(&rt, rt.alloc(), &table)
}

#[test]
fn frames_out_of_order(rt: HostRuntime) -> Result<(), Fail> {
    let table = [
        (
            "01010002FC\n01010002FC\n7F00027F\n",
            Err(fault(2, Cause::BadFrame)),
        ),
        (
            "01010002FC\n0200000001001E00DF\n7F00037E\n",
            Err(fault(3, Cause::BadFrame)),
        ),
        (
            "01010002FC\n0200000001001E00DF\n7F000180\n",
            Err(fault(3, Cause::BadFrame)),
        ),
        (
            "01010002FC\n0200000001001E00DF\n",
            Err(fault(3, Cause::BadFrame)),
        ),
        (
            "01010002FC\n0200000001001E00DF\n050000FB\n7F00037E\n7F00047D\n",
            Err(fault(5, Cause::BadFrame)),
        ),
        (
            "01010002FC\n0200000001001E00DF\n050000FB\n7F00037E\n0200000001001E00DF\n",
            Err(fault(5, Cause::BadFrame)),
        ),
        (
            "01010002FC\n040001FB\n040001FB\n7F00037E\n",
            Err(fault(3, Cause::BadFrame)),
        ),
        (
            "01010002FC\n040001FB\n040000FC\n7F00037E\n",
            Err(fault(3, Cause::BadFrame)),
        ),
        (
            "01010002FC\n040000FC\n0200000001001E00DF\n7F00037E\n",
            Err(fault(3, Cause::BadFrame)),
        ),
        (
            "01010002FC\n050000FB\n050001FA\n7F00037E\n",
            Err(fault(3, Cause::BadFrame)),
        ),
        (
            "01010002FC\n050000FB\n040001FB\n7F00037E\n",
            Err(fault(3, Cause::BadFrame)),
        ),
    ];
    check_table(&rt, rt.alloc(), &table)
}

#[test]
fn entries_refused(rt: HostRuntime) -> Result<(), Fail> {
    let table = [
        (
            "01010101FC\n7F000180\n",
            Err(refused(1, Refusal::MarksFull)),
        ),
        (
            "01010002FC\n0200000002001E00DE\n7F00027F\n",
            Err(refused(2, Refusal::NoSuchMark)),
        ),
        (
            "01010002FC\n0200010001001E00DE\n7F00027F\n",
            Err(refused(2, Refusal::SameEnds)),
        ),
        (
            "01010002FC\n0200000001000000FD\n7F00027F\n",
            Err(refused(2, Refusal::OutOfLimits)),
        ),
        (
            "01010002FC\n0200000001EA6100B2\n7F00027F\n",
            Err(refused(2, Refusal::OutOfLimits)),
        ),
        (
            "01010002FC\n020000000100016498\n7F00027F\n",
            Err(refused(2, Refusal::OutOfLimits)),
        ),
        (
            "01010002FC\n0200000001001E00DF\n0200000001001E00DF\n7F00037E\n",
            Err(refused(3, Refusal::JoinedAlready)),
        ),
        (
            "01010002FC\n0300000001000100FB\n0200010000001E00DF\n7F00037E\n",
            Err(refused(3, Refusal::JoinedAlready)),
        ),
        (
            "01010002FC\n040002FA\n7F00027F\n",
            Err(refused(2, Refusal::NoSuchMark)),
        ),
        (
            "01010002FC\n050002F9\n7F00027F\n",
            Err(refused(2, Refusal::NoSuchMark)),
        ),
    ];
    check_table(&rt, rt.alloc(), &table)
}

// 1,024 legs are loaded, and the next one is refused.
#[test]
fn full_file(rt: HostRuntime) -> Result<(), Fail> {
    let heap = rt.alloc();
    let mut text = String::from_str(heap, "01010100FD\n")?;
    for b in 8u16..137 {
        for a in 0u16..8 {
            let sum = (2 + a + b + 1) % 256;
            let check = (256 - sum) % 256;
            writeln!(text, "02{a:04X}{b:04X}000100{check:02X}")?;
        }
    }
    assert_eq!(rt;
        tried(heap, text.as_bytes())?,
        Err(refused(1026, Refusal::LegsFull))
    );
    Ok(())
}

#[test]
fn chart_with_marks(rt: HostRuntime) -> Result<(), Fail> {
    let mut chart = Chart::begin(rt.alloc(), Length)?;
    assert!(rt; chart.add_mark().is_ok());
    let loaded = load(&mut chart, SMALL.as_bytes());
    assert_eq!(rt; loaded, Err(fault(0, Cause::HasMarks)));
    assert_eq!(rt; chart.marks(), 1);
    Ok(())
}

#[test]
fn buffers(rt: HostRuntime) -> Result<(), Fail> {
    let mut chart = Chart::begin(rt.alloc(), Length)?;
    assert!(rt; load(&mut chart, SMALL.as_bytes()).is_ok());
    let mut short = [7u8; 47];
    assert_eq!(rt; write(&chart, &mut short), Err(ShortBuffer));
    assert_eq!(rt; short, [7u8; 47]);
    let mut long = [7u8; 50];
    assert_eq!(rt; write(&chart, &mut long), Ok(48));
    assert!(rt; &long[0..48] == SMALL.as_bytes());
    assert!(rt; &long[48..50] == [7u8; 2].as_slice());
    Ok(())
}

// The small file, damaged at every byte in turn, by every other byte. By index, since the whole text is read in between.
#[test]
fn damaged_files(rt: HostRuntime) -> Result<(), Fail> {
    let heap = rt.alloc();
    let mut text = SMALL.as_bytes().to_vec(heap)?;
    for at in 0..text.len() {
        for byte in 0..=255u8 {
            let whole = text[at];
            text[at] = byte;
            assert!(rt; is_sound(heap, text.as_slice())?);
            text[at] = whole;
        }
    }
    Ok(())
}
