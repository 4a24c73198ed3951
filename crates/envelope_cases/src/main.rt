// Runs the cases on standard input, one a line: a source and its set-ups, then the layers over it, and tells what the
// envelope answers.

#![tactic(auto)]

use anyhow::anyhow;
use either::{Either, Left, Right};
use envelopes::Envelope;
use layers::buffer::Buffer;
use layers::delay::Delay;
use layers::jitter::Jitter;
use layers::layer::Layer;
use layers::prefix::Prefix;
use patterns::live::Live;
use patterns::pattern::Pattern;
use std::alloc::Global;
use std::fmt::Display;
use std::io::{BufRead, BufReader};
use std::iter::repeat_n;
use stored::film::Film;

// Tells what the envelope answers at the first slots, and round the last one.
fn show<E: Envelope>(text: &mut String, envelope: &E) -> anyhow::Result<()> {
    let n = envelope.slots();
    write!(text, "{n} slots")?;
    for k in (0..8).chain([n.saturating_sub(1), n, n.saturating_add(1), usize::MAX]) {
        let lower = envelope.lower(k);
        let upper = envelope.upper(k);
        write!(text, " {lower}-{upper}")?;
    }
    Ok(())
}

// How many layers are put on at most.
const MOST_LAYERS: usize = 2;

// A layer of any kind.
type AnyLayer = Either<Either<Delay, Buffer>, Either<Jitter, Prefix>>;

// Shows the source under these layers, the first of them right over it.
// One arm for each number of layers: a recursion over a `&dyn Envelope` was tried and gets no proof.
fn show_under<E: Envelope + Drop>(
    text: &mut String,
    layers: &[AnyLayer],
    source: E,
) -> anyhow::Result<()> {
    match *layers {
        [] => show(text, &source),
        [first] => show(text, &first.over(source)),
        [first, second] => show(text, &second.over(first.over(source))),
        _ => Err(anyhow!("too many layers")),
    }
}

// What stands before and after the first such separator; where there is none, all of it and nothing.
fn halves(text: &str, separator: char) -> (&str, &str) {
    text.split_once(separator).unwrap_or((text, ""))
}

fn layer_of(layer: &str) -> anyhow::Result<AnyLayer> {
    let (kind, number) = halves(layer, ' ');
    match kind {
        "delay" => Ok(Left(Left(Delay(number.parse::<usize>()?.try_into()?)))),
        "buffer" => Ok(Left(Right(Buffer(number.parse::<u64>()?.try_into()?)))),
        "jitter" => Ok(Right(Left(Jitter(number.parse::<usize>()?.try_into()?)))),
        "prefix" => Ok(Right(Right(Prefix(number.parse::<u64>()?.try_into()?)))),
        _ => Err(anyhow!("no such layer")),
    }
}

// The layers of a case. All of them are read, and no more are kept than it takes to see that there are too many.
fn layers_of(heap: Global, text: &str) -> anyhow::Result<Vec<AnyLayer>> {
    let mut layers = Vec::new(heap);
    for layer in text.split(';').filter(|layer| !layer.is_empty()) {
        let layer = layer_of(layer)?;
        if layers.len() <= MOST_LAYERS {
            layers.push(layer)?;
        }
    }
    Ok(layers)
}

// Makes room for so many more as pushing them one by one would make it: extend alone takes the exact memory, and the next
// number then doubles it.
fn make_room(numbers: &mut Vec<u64>, times: usize) -> anyhow::Result<()> {
    for _ in 0..usize::BITS {
        let free = numbers.capacity().saturating_sub(numbers.len());
        if free >= times {
            break;
        }
        numbers.reserve(free.saturating_add(1))?;
    }
    Ok(())
}

// The numbers of a list; `3x7` stands for three times 7.
fn numbers_of(heap: Global, text: &str) -> anyhow::Result<Vec<u64>> {
    let mut numbers = Vec::new(heap);
    for word in text.split(' ') {
        let (times, number) = word.split_once('x').unwrap_or(("1", word));
        let number = number.parse::<u64>()?;
        let times = times.parse::<usize>()?;
        if times == 1 {
            numbers.push(number)?;
        } else {
            make_room(&mut numbers, times)?;
            numbers.extend(repeat_n(number, times))?;
        }
    }
    Ok(numbers)
}

fn sizes_of(heap: Global, text: &str) -> anyhow::Result<Vec<u32>> {
    if text.is_empty() {
        return Ok(Vec::new(heap));
    }
    text.split(' ')
        .map(|size| Ok(size.parse::<u32>()?))
        .try_collect(heap)
}

fn tell<F: Display + Drop>(text: &mut String, set_up: Result<(), F>) -> anyhow::Result<()> {
    match set_up {
        Ok(()) => text.push_str("set up; ")?,
        Err(fault) => write!(text, "{fault}; ")?,
    }
    Ok(())
}

// A new film is set up on one list and then on another.
fn film_text(heap: Global, lists: &str, layers: &[AnyLayer]) -> anyhow::Result<String> {
    let (one, other) = halves(lists, '/');
    let one = numbers_of(heap, one)?;
    let other = numbers_of(heap, other)?;
    let mut film = Film::new();
    let mut text = String::new(heap);
    for totals in [&one, &other] {
        tell(&mut text, film.set_up(totals))?;
    }
    show_under(&mut text, layers, film)?;
    Ok(text)
}

// A new pattern is set up twice too, each time with the slots before the sizes.
fn pattern_text(heap: Global, lists: &str, layers: &[AnyLayer]) -> anyhow::Result<String> {
    let (one, other) = halves(lists, '/');
    let (slots, sizes) = halves(one, ' ');
    let (other_slots, other_sizes) = halves(other, ' ');
    let sizes = sizes_of(heap, sizes)?;
    let other_sizes = sizes_of(heap, other_sizes)?;
    let mut pattern = Pattern::new();
    let mut text = String::new(heap);
    for (slots, sizes) in [(slots, &sizes), (other_slots, &other_sizes)] {
        tell(&mut text, pattern.set_up(sizes, slots.parse::<usize>()?))?;
    }
    show_under(&mut text, layers, &pattern)?;
    Ok(text)
}

fn live_text(heap: Global, text: &str, layers: &[AnyLayer]) -> anyhow::Result<String> {
    let (size, slots) = halves(text, ' ');
    let live = Live::new(size.parse::<u32>()?, slots.parse::<usize>()?)?;
    let mut text = String::new(heap);
    show_under(&mut text, layers, live)?;
    Ok(text)
}

fn case_text(heap: Global, line: &str) -> anyhow::Result<String> {
    let (source, layers) = halves(line, ';');
    let layers = layers_of(heap, layers)?;
    let (kind, lists) = halves(source, ' ');
    match kind {
        "film" => film_text(heap, lists, &layers),
        "pattern" => pattern_text(heap, lists, &layers),
        "live" => live_text(heap, lists, &layers),
        _ => Err(anyhow!("no such source")),
    }
}

fn run(rt: &HostRuntime) -> anyhow::Result<()> {
    let heap = rt.alloc();
    for line in BufReader::new(heap, rt.stdin())?.lines(heap) {
        match case_text(heap, line?.as_str()) {
            Ok(text) => rt.println(text)?,
            Err(e) => println!(rt; "{e}")?,
        }
    }
    Ok(())
}

fn main(rt: HostRuntime) -> anyhow::Result<()> {
    run(&rt)
}
