// 01, "The block": its letters, numbers and records, the test of a good block, the empty one, and what a crate above reads of it.

pub(crate) mod checks;
pub(crate) mod doors;
pub(crate) mod good;
pub(crate) mod headed;
pub(crate) mod kinds;
pub(crate) mod letters;
pub(crate) mod making;
pub(crate) mod moves;
pub(crate) mod numbers;
pub(crate) mod places;
pub(crate) mod record;
pub(crate) mod records;
