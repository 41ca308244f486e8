// 01, "The message", and M-100: the tests of a message, plain or wide, its halves as changes, and what a change does to a record. A list of changes from
// a crate above.

pub(crate) mod beginning;
pub(crate) mod carry;
pub(crate) mod counts;
pub(crate) mod edits;
pub(crate) mod halves;
pub(crate) mod lists;
pub(crate) mod names;
pub(crate) mod pairs;
pub(crate) mod plain;
pub(crate) mod run;
pub(crate) mod sending;
pub(crate) mod wide;
