// What can bear on a user's rights on an object.
#![tactic(auto)]

mod bearing;

pub use crate::bearing::bears;
