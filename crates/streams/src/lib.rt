// The desk on a stream: starts fresh, reads request records from standard input, writes only the answer records to standard output,
// stops at the first number 12 or at the end (document 01, "Records and pages"), and says on standard error why it has stopped. What is read
// and written no contract can speak of, so that is tested and not proved; the desk that it calls is proved.
#![tactic(auto)]

ghost use Rattle.std.specs.Prelude.{◌≤◌, length, IfOk};
ghost use Rattle.limits.specs.Limits.{read_size};

use std::convert::Infallible;
use std::fmt;
use std::io::Read;

// The longest record that there is. Of one that says to be longer nothing more is waited for: it is bad, whatever follows.
const LONGEST: usize = limits::READ_SIZE;

// How many bytes of the input are held at once.
const INPUT: usize = 65536;

// Why the stream stops.
#[derive(Clone, Copy, Debug)]
enum Stop {
    // The input has ended, behind a whole record.
    Ended,
    // The input has ended within a record.
    Cut,
    // The desk has refused a record.
    Bad,
    // The answers to a record could not be written.
    Unwritten,
    // The input could not be read.
    Unread,
    // The turns are used up.
    OutOfTurns,
}

// What is said of each, in front of the number of the byte.
impl fmt::Display for Stop {
    fn fmt<W: fmt::Write>(&self, f: &mut fmt::Formatter<W>) -> fmt::Result {
        f.write_str(match self {
            Stop::Ended => "keydesk: the input ended, at byte ",
            Stop::Cut => "keydesk: cut record at byte ",
            Stop::Bad => "keydesk: bad record at byte ",
            Stop::Unwritten => "keydesk: a write failed, of the answers to the record at byte ",
            Stop::Unread => "keydesk: a read failed, at byte ",
            Stop::OutOfTurns => "keydesk: out of turns, at byte ",
        })
    }
}

// How many bytes the desk is to be shown next: as many as the record's first two say, at least these two. One that is too long is bad by
// these alone.
fn wanted(input: &[u8], at: usize, end: usize) -> usize
    requires at_le_end { at ≤ end }
    requires end_in_bounds { end ≤ length input.now }
    ensures { (2 ≤ result) × (result ≤ read_size) }
{
    if end - at < 2 {
        return 2;
    }
    let said = numbers::number_at(input, at);
    if (2..=LONGEST).contains(&said) {
        said
    } else {
        2
    }
}

// Answers one record. A number other than 0 stands above the answers' bytes, and is so more than any space.
fn answer(
    rt: &impl Print,
    pages: &mut [u8],
    desk: &mut [u8],
    answers: &mut [u8],
    record: &[u8],
) -> Result<(), Stop> {
    let n = desk::keydesk_serve(pages, desk, answers, record) as usize;
    let answered = answers.get(..n).ok_or(Stop::Bad)?;
    rt.write_all(answered).map_err(|_| Stop::Unwritten)
}

// Answers the records that stand whole before `end`, one after the other, and counts their bytes. It gives how many bytes are left behind
// them, less than a record; where it stops because of a record, that one comes after the bytes that are counted.
fn answer_piece(
    rt: &impl Print,
    pages: &mut [u8],
    desk: &mut [u8],
    answers: &mut [u8],
    input: &[u8],
    end: usize,
    answered: &mut u64,
) -> Result<usize, Stop>
    requires { end ≤ length input.now }
    ensures { IfOk result (λ left. (left ≤ end) × (left ≤ read_size)) }
{
    let mut at: usize = 0;
    // A `while`: the records have lengths of their own.
    while at < end {
        let n = wanted(input, at, end);
        if end - at < n {
            return Ok(end - at);
        }
        answer(rt, pages, desk, answers, &input[at..at + n])?;
        at += n;
        *answered = answered.wrapping_add(n as u64);
    }
    Ok(0)
}

// Goes on until there is a reason to stop, and counts the bytes of the records that are answered. Each turn reads more behind what is left,
// and answers what is whole then; what is left of that goes to the front. A proved loop has to end, and nothing says that the input does:
// it counts its turns, up to a number that no run reaches.
fn go_through(
    rt: &impl Print,
    reader: &mut impl Read,
    pages: &mut [u8],
    desk: &mut [u8],
    answers: &mut [u8],
    input: &mut [u8; INPUT],
    answered: &mut u64,
) -> Result<Infallible, Stop> {
    let mut left: usize = 0;
    for _ in 0..u64::MAX {
        let more = reader.read(&mut input[left..]).map_err(|_| Stop::Unread)?;
        if more == 0 {
            return Err(if left > 0 { Stop::Cut } else { Stop::Ended });
        }
        let end = left + more;
        left = answer_piece(rt, pages, desk, answers, input, end, answered)?;
        input.copy_within(end - left..end, 0);
    }
    Err(Stop::OutOfTurns)
}

// The whole stream: what is read comes from the reader, standard input in the programs. At the end one line on standard error says why it
// has stopped, with the byte of the input, counted from 0, at which it did: two writes, the second also where the first fails. The exit
// status does not say it.
pub fn run(rt: &(impl Print + Eprint), reader: &mut impl Read) {
    let mut pages = [0u8; limits::PAGES_SIZE];
    let mut desk = [0u8; limits::DESK_SIZE];
    let mut answers = [0u8; limits::SPACE_LEAST];
    let mut input = [0u8; INPUT];
    desk::keydesk_fresh(&mut pages, &mut desk);
    let mut at: u64 = 0;
    let Err(stop) = go_through(
        rt,
        reader,
        &mut pages,
        &mut desk,
        &mut answers,
        &mut input,
        &mut at,
    );
    let _ = eprint!(rt; "{stop}");
    let _ = eprintln!(rt; "{at}");
}
