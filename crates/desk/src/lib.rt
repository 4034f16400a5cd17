// The key desk: one call answers one request on lent bytes. (Document 01, "What the desk says".)
#![tactic(auto)]

mod fresh;

ghost use Rattle.std.specs.Prelude.{◌≡◌};
ghost use Rattle.calls.specs.Promise.{Freshened, Served, lent, returned};
ghost use Rattle.desk.specs.Refusing.{freshened_by, number_of, served_by};

// Why a call has no answer: the number that it returns.
#[derive(Clone, Copy)]
enum Refused {
    WrongSizes = 10,
    NotWhole = 11,
    BadRequest = 12,
}

impl Refused {
    // What the call returns: the number, in the upper half.
    fn returned(self) -> u64
        ensures { result ≡ returned (number_of self) 0 }
    {
        (self as u64) << 32
    }
}

// Makes a fresh picture of any bytes of the two lengths; for others nothing is written.
fn freshen(pages: &mut [u8], desk: &mut [u8]) -> Result<(), Refused>
    ensures { Freshened pages.old desk.old pages.new desk.new (freshened_by result) }
{
    let pages = pages.as_mut_array().ok_or(Refused::WrongSizes)?;
    let desk = desk.as_mut_array().ok_or(Refused::WrongSizes)?;
    index::fresh_pages(pages);
    fresh::fresh_desk(desk);
    Ok(())
}

// Answers the request that a slice is, and gives how many bytes of answers were written. Where it is refused nothing is changed.
fn serve(
    pages: &mut [u8],
    desk: &mut [u8],
    answers: &mut [u8],
    request: &[u8],
) -> Result<usize, Refused>
    ensures { Served request.now (lent pages.old desk.old answers.old) (lent pages.new desk.new answers.new) (served_by result) }
{
    if answers.len() < limits::SPACE_LEAST {
        return Err(Refused::WrongSizes);
    }
    let pages = pages.as_mut_array().ok_or(Refused::WrongSizes)?;
    let desk = desk.as_mut_array().ok_or(Refused::WrongSizes)?;
    if !judging::is_whole(pages, desk) {
        return Err(Refused::NotWhole);
    }
    let call = requests::read_request(request).ok_or(Refused::BadRequest)?;
    Ok(answering::answer(pages, desk, answers, call))
}

// Makes a fresh picture of any bytes of the two lengths, and returns 0; for others 10, in the upper half, and nothing is written.
#[unsafe(no_mangle)]
pub extern "C" fn keydesk_fresh(pages: &mut [u8], desk: &mut [u8]) -> u64
    ensures { Freshened pages.old desk.old pages.new desk.new result }
{
    match freshen(pages, desk) {
        Ok(()) => 0,
        Err(refused) => refused.returned(),
    }
}

// Answers the request that a slice is. It returns the number, 10 to 12 or 0, in the upper half, and how many bytes of answers were written
// in the lower. With 10 to 12 nothing is changed.
#[unsafe(no_mangle)]
pub extern "C" fn keydesk_serve(
    pages: &mut [u8],
    desk: &mut [u8],
    answers: &mut [u8],
    request: &[u8],
) -> u64
    ensures { Served request.now (lent pages.old desk.old answers.old) (lent pages.new desk.new answers.new) result }
{
    match serve(pages, desk, answers, request) {
        Ok(n) => n as u64,
        Err(refused) => refused.returned(),
    }
}
