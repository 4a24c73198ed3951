// Runs the cases on standard input, one a line: a kind, how many totals there is room for, and a file in hex.

#![tactic(auto)]

use anyhow::anyhow;
use films::make::make_film;
use ivf::{Frame, IvfReader};
use listing::list::listing;
use readers::fault::OpenFault;
use readers::reader::Reader;
use std::alloc::Global;
use std::fmt::Write;
use std::io::{BufRead, BufReader};
use stsz::{IndexRecord, StszReader};

// What stands in the memory before a film is made.
const STALE: u64 = 7;

// How many totals of a film are shown at most.
const SHOWN: usize = 12;

// A digit as the cases have it: to_digit of a char takes capitals too.
fn digit(b: u8) -> Option<u8> {
    match b {
        b'0'..=b'9' => Some(b - b'0'),
        b'a'..=b'f' => Some(b - b'a' + 10),
        _ => None,
    }
}

fn byte_of(pair: &[u8; 2]) -> Option<u8> {
    let [high, low] = *pair;
    Some(digit(high)? << 4 | digit(low)?)
}

// The bytes that the digits stand for, two digits each; an odd one at the end stands for none. A pair gives an option and
// not an error of its own: tried, map and try_collect over results took a quarter to a third more time.
fn bytes_of(heap: Global, hex: &str) -> anyhow::Result<Vec<u8>> {
    let (pairs, odd) = hex.as_bytes().as_chunks::<2>();
    let mut bytes = Vec::new(heap);
    for pair in pairs {
        let Some(byte) = byte_of(pair) else {
            return Err(anyhow!("no hex digit"));
        };
        bytes.push(byte)?;
    }
    match odd {
        [b] if digit(*b).is_none() => Err(anyhow!("no hex digit")),
        _ => Ok(bytes),
    }
}

fn nonzero(totals: &[u64]) -> usize {
    totals.iter().filter(|total| **total != 0).count()
}

fn film_text(heap: Global, frames: usize, totals: &[u64]) -> anyhow::Result<String> {
    let rest = totals.get(frames.saturating_add(1)..).unwrap_or(&[]);
    let left = nonzero(rest);
    let last = totals.get(frames).copied().unwrap_or(STALE);
    let mut text = format!(in heap; "film {frames} of {last} bytes, {left} stale:")?;
    if frames < SHOWN {
        for total in totals.get(..frames + 1).unwrap_or(&[]) {
            write!(text, " {total}")?;
        }
    }
    Ok(text)
}

// The film that a reader gives.
fn film<R: Reader>(heap: Global, reader: &mut R, room: usize) -> anyhow::Result<String> {
    let mut totals = vec![in heap; STALE; room]?;
    match make_film(reader, &mut totals) {
        Ok(frames) => film_text(heap, frames, &totals),
        Err(fault) => {
            let left = nonzero(&totals);
            Ok(format!(in heap; "{fault}, {left} stale")?)
        }
    }
}

fn show_frame(text: &mut String, frame: Frame) -> anyhow::Result<()> {
    let Frame {
        data,
        place,
        size,
        stamp,
    } = frame;
    let held = data.len();
    let first = data.first().copied().unwrap_or(0);
    write!(
        text,
        "{held} bytes at {place} from {first}, size {size}, stamp {stamp}; "
    )?;
    Ok(())
}

fn show_record(text: &mut String, record: IndexRecord) -> anyhow::Result<()> {
    let IndexRecord { size, number } = record;
    write!(text, "{number} of {size}; ")?;
    Ok(())
}

// The answers to some calls of `next`, also past the ending, each record as `show` has it.
fn answers<R: Reader, F: Fn(&mut String, R::Record) -> anyhow::Result<()>>(
    heap: Global,
    reader: &mut R,
    calls: usize,
    show: F,
) -> anyhow::Result<String>
    requires { F.IsAlwaysCallable show }
{
    let mut text = String::new(heap);
    for _ in 0..calls {
        match reader.next() {
            Ok(Some(record)) => show(&mut text, record)?,
            Ok(None) => text.push_str("end; ")?,
            Err(fault) => write!(text, "{fault}; ")?,
        }
    }
    Ok(text)
}

// The text that `then` makes of a reader that was opened, or what kept it from being opened.
fn of_opened<R: Reader + Drop, F: FnOnce(&mut R) -> anyhow::Result<String>>(
    heap: Global,
    opened: Result<R, OpenFault>,
    then: F,
) -> anyhow::Result<String>
    requires { F.IsAlwaysCallable then }
{
    match opened {
        Ok(mut reader) => then(&mut reader),
        Err(fault) => Ok(fault.to_string(heap)?),
    }
}

fn rows_text(heap: Global, input: &[u8]) -> anyhow::Result<String> {
    let mut text = String::new(heap);
    for row in listing(input) {
        write!(text, "{row}")?;
    }
    Ok(text)
}

fn answer(heap: Global, line: &str) -> anyhow::Result<String> {
    let mut words = line.split(' ');
    let kind = words.next().unwrap_or("");
    let number = words.next().unwrap_or("").parse::<usize>()?;
    let input = bytes_of(heap, words.next().unwrap_or(""))?;
    match kind {
        "ivf" => of_opened(
            heap,
            IvfReader::open(&input),
            |reader| film(heap, reader, number),
        ),
        "stsz" => of_opened(
            heap,
            StszReader::open(&input),
            |reader| film(heap, reader, number),
        ),
        "frames" => of_opened(
            heap,
            IvfReader::open(&input),
            |reader| answers(heap, reader, number, show_frame),
        ),
        "records" => of_opened(
            heap,
            StszReader::open(&input),
            |reader| answers(heap, reader, number, show_record),
        ),
        "listing" => rows_text(heap, &input),
        _ => Err(anyhow!("no such kind")),
    }
}

fn run(rt: &HostRuntime) -> anyhow::Result<()> {
    let heap = rt.alloc();
    for line in BufReader::new(heap, rt.stdin())?.lines(heap) {
        rt.println(answer(heap, line?.as_str())?)?;
    }
    Ok(())
}

fn main(rt: HostRuntime) -> anyhow::Result<()> {
    run(&rt)
}
