// One page: the bytes that are lent to it, read and changed as the entries of a leaf or the children of an inner page.
// (Document 01, "Records and pages".) A page is a slice whose length each function asks for, and no array: document 01 names the form, a part
// of the lent buffer that is lent on, and what an array taken from a part leaves in the buffer takes a proof at each place.
#![tactic(auto)]

pub mod inner;
pub mod leaf;

// A child of an inner page: its separator and its page.
#[derive(Clone, Copy)]
pub struct Child {
    pub low: keys::Key,
    pub page: u16,
}
