// Answers as values and as records. (Document 01, "What the desk says", "Records and pages".)
#![tactic(auto)]

ghost use Rattle.std.specs.Prelude.{◌≡◌, ◌+◌, ◌≤◌, length};
ghost use Rattle.limits.specs.Limits.{answer_size};
ghost use Rattle.rules.specs.Runs.{paper, numbered};
ghost use Rattle.answers.specs.AnswerMeaning.{book_says, book_answer, OnPaper};
ghost use Rattle.answers.specs.AnswerRecord.{put_answer};

use keys::Key;

// What the desk says. Who waits is told the number of the one who is in the way.
#[derive(Clone, Copy)]
pub enum Says {
    Done,
    Found(Key, Option<u32>),
    Nothing,
    Waiting(u16),
    RunsAlready,
    RunsNot,
    WaitsAlready,
    IsPresent(Key, Option<u32>),
    LocksShort,
    PagesShort,
    Circle,
}

// The paper's number, key and record; key and record are zero where there is none. The record's place has who is in the way with 3.
#[derive(Clone, Copy)]
pub struct Paper {
    pub number: u16,
    pub key: Key,
    pub rec: u32,
}

// A number alone.
fn numbered(number: u16) -> Paper
    ensures { OnPaper (numbered number) result }
{
    Paper {
        number,
        key: Key::LOWEST,
        rec: 0,
    }
}

impl Says {
    // The number, key and record that document 01 gives to each case.
    pub fn paper(self) -> Paper
        ensures { OnPaper (paper (book_says self)) result }
    {
        match self {
            Says::Done => numbered(0),
            Says::Found(key, now) => Paper {
                number: 1,
                key,
                rec: entries::record(now),
            },
            Says::Nothing => numbered(2),
            Says::Waiting(by) => Paper {
                number: 3,
                key: Key::LOWEST,
                rec: u32::from(by),
            },
            Says::RunsAlready => numbered(13),
            Says::RunsNot => numbered(14),
            Says::WaitsAlready => numbered(15),
            Says::IsPresent(key, now) => Paper {
                number: 16,
                key,
                rec: entries::record(now),
            },
            Says::LocksShort => numbered(17),
            Says::PagesShort => numbered(18),
            Says::Circle => numbered(19),
        }
    }
}

// What the desk says, and to whom.
#[derive(Clone, Copy)]
pub struct Answer {
    pub asker: u16,
    pub says: Says,
}

// The length of an answer, as it says it itself, and where its record stands.
const LENGTH: u16 = limits::ANSWER_SIZE as u16;

const REC: usize = 8 + limits::KEY_SIZE;

// Writes an answer record at a place, and nothing else.
pub fn put_answer(out: &mut [u8], at: usize, a: Answer)
    requires { at + answer_size ≤ length out.old }
    ensures { out.new ≡ put_answer out.old at (book_answer a) }
{
    let paper = a.says.paper();
    numbers::write_u16(out, at, LENGTH);
    numbers::write_u16(out, at + 2, 7);
    numbers::write_u16(out, at + 4, a.asker);
    numbers::write_u16(out, at + 6, paper.number);
    paper.key.write(out, at + 8);
    numbers::write_u32(out, at + REC, paper.rec);
}
