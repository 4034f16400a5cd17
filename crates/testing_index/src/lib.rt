// For the tests: the index through C linkage, on a page buffer of any bytes. Each door judges the buffer itself and does nothing where it is
// not whole. An entry passes as key, owner, now and before; a record that is absent passes as a number above every record.
#![tactic(auto)]

mod fields;

ghost use Rattle.index.specs.Pictures.{WholePages};
ghost use Rattle.testing_index.specs.Judging.{Held, Sees};

use index::Sought;
use keys::Key;
use limits::Pages;

// What a door that returns a number returns where it refuses.
pub const REFUSED: u64 = u64::MAX;

// Whether the bytes are those of a whole page buffer.
fn is_whole(pages: &Pages) -> bool
    ensures { Held pages.now result }
{
    judging_pages::are_pages(pages)
}

// Whether the index has a key.
fn has_key(pages: &Pages, key: Key) -> bool
    requires { WholePages pages.now }
    ensures { Sees pages.now key.0 result }
{
    let sought = Sought {
        lo: key,
        hi: key,
        asker: 0,
    };
    index::find(pages, sought).is_some_and(|e| e.key == key)
}

#[unsafe(no_mangle)]
pub extern "C" fn shelf_is_whole(pages: &[u8]) -> bool {
    pages.as_array().is_some_and(|pages| is_whole(pages))
}

// Makes a buffer of the right length that of an empty index, whatever its bytes are.
#[unsafe(no_mangle)]
pub extern "C" fn shelf_fresh(pages: &mut [u8]) -> bool {
    let Some(pages) = pages.as_mut_array() else {
        return false;
    };
    index::fresh_pages(pages);
    true
}

// 1 and the first entry sought in `out`, or 0 where there is none.
#[unsafe(no_mangle)]
pub extern "C" fn shelf_find(pages: &[u8], lo: u64, hi: u64, asker: u16, out: &mut [u8]) -> u64 {
    let Some(pages) = pages.as_array() else {
        return REFUSED;
    };
    if !is_whole(pages) {
        return REFUSED;
    }
    if out.len() != fields::FIELDS_SIZE {
        return REFUSED;
    }
    let sought = Sought {
        lo: Key(lo),
        hi: Key(hi),
        asker,
    };
    match index::find(pages, sought) {
        Some(e) => {
            fields::put_fields(out, e);
            1
        }
        None => 0,
    }
}

// 1 where a missing key was put in, 0 where the pages have no room for it. The end and a key that is there are refused.
#[unsafe(no_mangle)]
pub extern "C" fn shelf_add(pages: &mut [u8], key: u64, owner: u16, now: u64, before: u64) -> u64 {
    let Some(pages) = pages.as_mut_array() else {
        return REFUSED;
    };
    if !is_whole(pages) {
        return REFUSED;
    }
    let key = Key(key);
    if !key.is_key() {
        return REFUSED;
    }
    if has_key(pages, key) {
        return REFUSED;
    }
    u64::from(adding::add(pages, fields::entry_of(key, owner, now, before)))
}

#[unsafe(no_mangle)]
pub extern "C" fn shelf_replace(
    pages: &mut [u8],
    key: u64,
    owner: u16,
    now: u64,
    before: u64,
) -> bool {
    let Some(pages) = pages.as_mut_array() else {
        return false;
    };
    if !is_whole(pages) {
        return false;
    }
    settling::replace(pages, fields::entry_of(Key(key), owner, now, before));
    true
}

#[unsafe(no_mangle)]
pub extern "C" fn shelf_settle(pages: &mut [u8], owner: u16, commits: bool) -> bool {
    let Some(pages) = pages.as_mut_array() else {
        return false;
    };
    if !is_whole(pages) {
        return false;
    }
    settling::settle(pages, owner, commits);
    true
}
