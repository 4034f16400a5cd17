// Document 01's limits and sizes, each once; what follows from others is computed from them. Sizes and places are counted in bytes. The
// definitions name the same numbers in specs/Limits; `as_named` ties the two together.
#![tactic(auto)]

ghost use Rattle.std.specs.Prelude.{◌≡◌};
ghost use Rattle.limits.specs.Named.{named};

// How many transactions there may be, numbered from 1 on; how many locks, the slots of the lock table; how many pages.
pub const TRANSACTIONS: usize = 16;

// The highest number of a transaction.
pub const LAST_TRANSACTION: u16 = TRANSACTIONS as u16;

pub const LOCKS: usize = 256;

pub const PAGES: usize = 64;

// A key, wherever it stands.
pub const KEY_SIZE: usize = 8;

// A page: its head, and its body of rows; all pages together.
pub const PAGE_SIZE: usize = 512;

pub const HEAD_SIZE: usize = 16;

// The bytes of one page.
pub type Page = [u8; PAGE_SIZE];

pub const BODY_SIZE: usize = PAGE_SIZE - HEAD_SIZE;

pub const PAGES_SIZE: usize = PAGE_SIZE * PAGES;

// The bytes of all pages, as they are lent.
pub type Pages = [u8; PAGES_SIZE];

// Leaves: an entry, how many there may be, and of one more than those how many stay and how many go to a new page.
pub const ENTRY_SIZE: usize = KEY_SIZE + 12;

pub const LEAF_MOST: usize = BODY_SIZE / ENTRY_SIZE;

pub const LEAF_STAY: usize = (LEAF_MOST + 2) / 2;

pub const LEAF_GO: usize = LEAF_MOST + 1 - LEAF_STAY;

// Inner pages: a child, how many there may be, how few below the root, and of one more than those how many stay and how many go.
pub const CHILD_SIZE: usize = KEY_SIZE + 8;

pub const INNER_MOST: usize = 30;

pub const INNER_FEWEST: usize = INNER_MOST / 2;

pub const INNER_STAY: usize = (INNER_MOST + 2) / 2;

pub const INNER_GO: usize = INNER_MOST + 1 - INNER_STAY;

// The desk: its head, the queue, the records of the transactions from their place on, the slots of the locks from theirs on.
pub const DESK_HEAD_SIZE: usize = 32;

pub const QUEUE_SIZE: usize = 2 * TRANSACTIONS;

pub const RECORD_SIZE: usize = 2 * KEY_SIZE + 16;

pub const RECORDS_PLACE: usize = DESK_HEAD_SIZE + QUEUE_SIZE;

pub const SLOT_SIZE: usize = KEY_SIZE + 8;

pub const SLOTS_PLACE: usize = RECORDS_PLACE + RECORD_SIZE * TRANSACTIONS;

pub const DESK_SIZE: usize = SLOTS_PLACE + SLOT_SIZE * LOCKS;

// The bytes of the desk, as they are lent.
pub type Desk = [u8; DESK_SIZE];

// Requests: what they all begin with; a read, an insert, a delete.
pub const REQUEST_HEAD_SIZE: usize = 8;

pub const READ_SIZE: usize = REQUEST_HEAD_SIZE + 2 * KEY_SIZE;

pub const INSERT_SIZE: usize = REQUEST_HEAD_SIZE + KEY_SIZE + 8;

pub const DELETE_SIZE: usize = REQUEST_HEAD_SIZE + KEY_SIZE;

// An answer, and the space for one to each transaction.
pub const ANSWER_SIZE: usize = KEY_SIZE + 12;

pub const SPACE_LEAST: usize = ANSWER_SIZE * TRANSACTIONS;

// All of them, as the code has them.
#[derive(Drop)]
pub struct Numbers {
    pub transactions_most: usize,
    pub locks_most: usize,
    pub pages_most: usize,
    pub key_size: usize,
    pub page_size: usize,
    pub head_size: usize,
    pub body_size: usize,
    pub pages_size: usize,
    pub entry_size: usize,
    pub leaf_most: usize,
    pub leaf_stay: usize,
    pub leaf_go: usize,
    pub child_size: usize,
    pub inner_most: usize,
    pub inner_fewest: usize,
    pub inner_stay: usize,
    pub inner_go: usize,
    pub desk_head_size: usize,
    pub queue_size: usize,
    pub record_size: usize,
    pub records_place: usize,
    pub slot_size: usize,
    pub slots_place: usize,
    pub desk_size: usize,
    pub request_head_size: usize,
    pub read_size: usize,
    pub insert_size: usize,
    pub delete_size: usize,
    pub answer_size: usize,
    pub space_least: usize,
    pub last_transaction: u16,
}

// They are those that the definitions name.
pub fn as_named() -> Numbers
    ensures { result ≡ named }
{
    Numbers {
        transactions_most: TRANSACTIONS,
        locks_most: LOCKS,
        pages_most: PAGES,
        key_size: KEY_SIZE,
        page_size: PAGE_SIZE,
        head_size: HEAD_SIZE,
        body_size: BODY_SIZE,
        pages_size: PAGES_SIZE,
        entry_size: ENTRY_SIZE,
        leaf_most: LEAF_MOST,
        leaf_stay: LEAF_STAY,
        leaf_go: LEAF_GO,
        child_size: CHILD_SIZE,
        inner_most: INNER_MOST,
        inner_fewest: INNER_FEWEST,
        inner_stay: INNER_STAY,
        inner_go: INNER_GO,
        desk_head_size: DESK_HEAD_SIZE,
        queue_size: QUEUE_SIZE,
        record_size: RECORD_SIZE,
        records_place: RECORDS_PLACE,
        slot_size: SLOT_SIZE,
        slots_place: SLOTS_PLACE,
        desk_size: DESK_SIZE,
        request_head_size: REQUEST_HEAD_SIZE,
        read_size: READ_SIZE,
        insert_size: INSERT_SIZE,
        delete_size: DELETE_SIZE,
        answer_size: ANSWER_SIZE,
        space_least: SPACE_LEAST,
        last_transaction: LAST_TRANSACTION,
    }
}
