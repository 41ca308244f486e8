// A question that is in order.

ghost use Rattle.std.specs.Prelude.{◌<◌, ◌^◌};
ghost use Rattle.index.specs.Letters.{right_count};
ghost use Rattle.index.specs.Block.{IsName};

use crate::Profile;

// The rights that are asked for, of the user on the object, in the profile.
#[derive(Clone, Copy)]
pub struct Question {
    pub user: usize,
    pub object: usize,
    pub request: u8,
    pub profile: Profile,
    ghost user_named: { IsName user },
    ghost object_named: { IsName object },
    ghost small: { request < 2 ^ right_count },
}
