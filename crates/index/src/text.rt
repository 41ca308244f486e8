// 01, "The text of a set": the two calls, the writer, and the readers from the pieces up.

pub(crate) mod entries;
pub(crate) mod reading;
pub(crate) mod scanning;
pub(crate) mod sets;
pub(crate) mod taking;
pub(crate) mod writing;
