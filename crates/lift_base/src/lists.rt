//! Lists with fixed room.

ghost use Rattle.std.specs.Prelude.{◌≡◌, ◌<◌, ◌++◌, length};
ghost use Rattle.std.specs.Option.{option_to_list};

use crate::limits::MOST_ENTRIES;
use arrayvec::ArrayVec;

/// Adds an item to a batch, if there is one.
pub fn push_some<T: Copy>(list: &mut ArrayVec<T, MOST_ENTRIES>, item: Option<T>)
    requires { length list.old.items < MOST_ENTRIES }
    ensures { list.new.items ≡ list.old.items ++ option_to_list item }
{
    if let Some(item) = item {
        list.push(item);
    }
}
