// The desk for callers that are not written in Rattle: the two functions of the crate `desk`, exported from a static library with the same
// contracts: what C calls stands once in a static library, and once in a library of Rattle. (include/keydesk.h declares them.)
#![tactic(auto)]

ghost use Rattle.calls.specs.Promise.{Freshened, Served, lent};

// Makes a fresh picture of any bytes of the two lengths, and returns 0; for others 10, in the upper half, and nothing is written.
#[unsafe(no_mangle)]
pub extern "C" fn keydesk_fresh(pages: &mut [u8], desk: &mut [u8]) -> u64
    ensures { Freshened pages.old desk.old pages.new desk.new result }
{
    desk::keydesk_fresh(pages, desk)
}

// Answers the request that a slice is. It returns the number, 10 to 12 or 0, in the upper half, and how many bytes of answers were written
// in the lower. With 10 to 12 nothing is changed.
#[unsafe(no_mangle)]
pub extern "C" fn keydesk_serve(
    pages: &mut [u8],
    desk: &mut [u8],
    answers: &mut [u8],
    request: &[u8],
) -> u64
    ensures { Served request.now (lent pages.old desk.old answers.old) (lent pages.new desk.new answers.new) result }
{
    desk::keydesk_serve(pages, desk, answers, request)
}
