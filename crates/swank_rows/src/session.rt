use lisp_data::{NoMemory, Rows, Text};
use lisp_image::Image;
use outside_traits::{MemSink, MemSource};
use packet_framing::frame;
use std::alloc::Global;
use std::mem;
use swank_command::{Journal, Outcome, Status, run};
use swank_session::Event;

/// What a run is given.
#[derive(Clone, Copy)]
pub struct Given<'a> {
    /// The words, with a space between two; the empty text is no word.
    pub words: &'a str,
    /// The octets that stand ready, and how many a read gives at most.
    pub octets: &'a [u8],
    pub piece: usize,
    /// The read that fails, counted from 1; 0 is none.
    pub bad_read: u64,
    /// How many octets a write takes at most, and the call of the sink that fails.
    pub at_most: usize,
    pub bad_write: u64,
}

impl<'a> Given<'a> {
    /// The words `pipe`, octets that come in one piece, and devices without faults.
    pub fn pipe(octets: &'a [u8]) -> Given<'a> {
        Given {
            words: "pipe",
            octets,
            piece: octets.len(),
            bad_read: 0,
            at_most: 4096,
            bad_write: 0,
        }
    }
}

/// What a run leaves behind.
#[derive(Drop)]
pub struct Remains {
    pub status: Status,
    pub written: Rows<u8>,
    pub taken: u64,
    pub sent: u64,
    /// The events of the journal, with a space behind each.
    pub events: Text,
}

fn words(alloc: Global, line: &str) -> Result<Rows<Text>, NoMemory> {
    let mut words = Rows::new(alloc);
    for word in line.split(' ') {
        if !word.is_empty() {
            words.push(Text::of(alloc, word)?)?;
        }
    }
    Ok(words)
}

fn calls(alloc: Global, number: u64) -> Result<Rows<u64>, NoMemory> {
    let mut calls = Rows::new(alloc);
    if number > 0 {
        calls.push(number)?;
    }
    Ok(calls)
}

/// The octets in pieces of so many each.
fn pieces(alloc: Global, octets: &[u8], size: usize) -> Result<Rows<Rows<u8>>, NoMemory> {
    let mut pieces = Rows::new(alloc);
    for piece in octets.chunks(size.max(1)) {
        pieces.push(Rows::from_slice(alloc, piece)?)?;
    }
    Ok(pieces)
}

/// Adds an event's name and numbers.
fn add_event(alloc: Global, text: &mut Text, event: &Event) -> Result<(), NoMemory> {
    let shown = match event {
        Event::Arrive(_) => format!(in alloc; "Arrive ")?,
        Event::End => format!(in alloc; "End ")?,
        Event::Lend(thread) => format!(in alloc; "Lend({thread}) ")?,
        Event::Burst(thread, steps) => format!(in alloc; "Burst({thread},{steps}) ")?,
        Event::Drain(count) => format!(in alloc; "Drain({count}) ")?,
    };
    text.push_str(shown.as_str())
}

fn events(alloc: Global, journal: &Journal) -> Result<Text, NoMemory> {
    let mut text = Text::new(alloc);
    for n in 0..journal.len() {
        if let Some(entry) = journal.entry(n) {
            add_event(alloc, &mut text, &entry.event)?;
        }
    }
    Ok(text)
}

fn seen(alloc: Global, outcome: Outcome, written: Rows<u8>) -> Result<Remains, NoMemory> {
    Ok(Remains {
        status: outcome.status,
        written,
        taken: outcome.taken,
        sent: outcome.sent,
        events: events(alloc, &outcome.journal)?,
    })
}

/// Runs the program on this, from a fresh image.
pub fn ran(alloc: Global, given: Given<'_>) -> Result<Remains, NoMemory> {
    let words = words(alloc, given.words)?;
    let pieces = pieces(alloc, given.octets, given.piece)?;
    let mut input = MemSource::new(pieces, calls(alloc, given.bad_read)?);
    let mut output = MemSink::new(alloc, given.at_most.max(1), calls(alloc, given.bad_write)?);
    let image = Image::new(alloc)?;
    let outcome = run(alloc, words.as_slice(), image, &mut input, &mut output);
    seen(
        alloc,
        outcome,
        mem::replace(&mut output.taken, Rows::new(alloc)),
    )
}

/// One session: the packets that go in, and those that must come out.
#[derive(Drop)]
struct Session {
    input: Rows<u8>,
    output: Rows<u8>,
}

/// A line with so many copies of a part in each place of a mark.
fn filled(
    alloc: Global,
    line: &str,
    mark: &str,
    part: &str,
    count: usize,
) -> Result<Text, NoMemory> {
    if !line.contains(mark) {
        return Text::of(alloc, line);
    }
    let with = part.repeat(alloc, count)?;
    let text = line.replace(alloc, mark, with.as_str())?;
    Text::of(alloc, text.as_str())
}

/// The payload of a line: `<N>` is the turn's number, `<LF>` a newline, `<OPEN>` 500 parentheses, `<LONG>` a number of 2^20 digits, and
/// `<MANY>` 52,500 symbols, each of which prints as one that is twice as long where COMMON-LISP is current.
fn payload(alloc: Global, line: &str, turn: u64) -> Result<Text, NoMemory> {
    let number = format!(in alloc; "{turn}")?;
    let numbered = filled(alloc, line, "<N>", number.as_str(), 1)?;
    let lines = filled(alloc, numbered.as_str(), "<LF>", "\n", 1)?;
    let open = filled(alloc, lines.as_str(), "<OPEN>", "(", 500)?;
    let long = filled(alloc, open.as_str(), "<LONG>", "1", 1_048_576)?;
    filled(alloc, long.as_str(), "<MANY>", "cl-user::a ", 52_500)
}

fn add_packet(alloc: Global, octets: &mut Rows<u8>, line: &str, turn: u64) -> Result<(), NoMemory> {
    let text = payload(alloc, line, turn)?;
    frame(octets, &text).map_err(|_| NoMemory)
}

/// Adds the packets of lines to a session: behind `> ` stands a payload that goes in, behind `< ` one that must come out.
fn add_lines(alloc: Global, session: &mut Session, lines: &str, turn: u64) -> Result<(), NoMemory> {
    for line in lines.lines() {
        if let Some(payload) = line.strip_prefix("> ") {
            add_packet(alloc, &mut session.input, payload, turn)?;
        } else if let Some(payload) = line.strip_prefix("< ") {
            add_packet(alloc, &mut session.output, payload, turn)?;
        }
    }
    Ok(())
}

/// How many turns a block of lines has, which its first line may say behind `* `; 1 where it doesn't.
fn turns_of(block: &str) -> u64 {
    match block.lines().next() {
        Some(first) => first.trim_start_matches("* ").parse().unwrap_or(1),
        None => 1,
    }
}

/// A session as lines, in blocks that each begin at a line `* COUNT`; such a block goes in so many times.
fn session_of(alloc: Global, lines: &str) -> Result<Session, NoMemory> {
    let mut session = Session {
        input: Rows::new(alloc),
        output: Rows::new(alloc),
    };
    for block in lines.split("\n* ") {
        for turn in 0..turns_of(block) {
            add_lines(alloc, &mut session, block, turn)?;
        }
    }
    Ok(session)
}

/// Whether a session ends well and writes what it must.
fn is_served(alloc: Global, session: &Session) -> Result<bool, NoMemory> {
    let ran = ran(alloc, Given::pipe(session.input.as_slice()))?;
    Ok(ran.status == Status::Ok && ran.written.as_slice() == session.output.as_slice())
}

/// The first of these sessions that is not served as it must be, counted from 1; 0 is none. An empty line stands between two.
pub fn first_wrong(alloc: Global, table: &str) -> Result<u64, NoMemory> {
    let mut number: u64 = 0;
    for lines in table.split("\n\n") {
        number = number.saturating_add(1);
        if !is_served(alloc, &session_of(alloc, lines)?)? {
            return Ok(number);
        }
    }
    Ok(0)
}
