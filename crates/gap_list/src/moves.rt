// The elements of a row from a start on, moved within it.
ghost use Rattle.std.specs.Prelude.{◌≡◌, ◌+◌, ◌<◌, ◌≤◌, Some, drop, length, remove, slice_get, vec_capacity};

/// Takes an element out of those from a start on: the ones before it move up, so that the others are those from the next place on.
pub(crate) fn take_up<T: Copy>(items: &mut Vec<T>, start: usize, place: usize) -> T
    requires { start + place < length items.old.items }
    ensures taken { slice_get (drop start items.old.items) place ≡ Some result }
    ensures left { drop (start + 1) items.new.items ≡ remove (drop start items.old.items) place }
    ensures size { length items.new.items ≡ length items.old.items }
    ensures capacity { vec_capacity items.new ≡ vec_capacity items.old }
{
    let taken = items[start + place];
    items.copy_within(start..start + place, start + 1);
    taken
}

/// Takes an element out of those from a start on: the ones behind it move down.
pub(crate) fn take_down<T: Copy>(items: &mut Vec<T>, start: usize, place: usize) -> T
    requires { start + place < length items.old.items }
    ensures taken { slice_get (drop start items.old.items) place ≡ Some result }
    ensures left { drop start items.new.items ≡ remove (drop start items.old.items) place }
    ensures size { length items.new.items + 1 ≡ length items.old.items }
    ensures capacity { vec_capacity items.new ≡ vec_capacity items.old }
{
    items.remove(start + place)
}

/// Makes room behind the elements from a start on, which are fewer than the row has room for: where they begin then.
pub(crate) fn make_room<T: Copy>(items: &mut Vec<T>, start: usize) -> usize
    requires start { start ≤ length items.old.items }
    requires few { length items.old.items < start + vec_capacity items.old }
    ensures same { drop result items.new.items ≡ drop start items.old.items }
    ensures start { result ≤ length items.new.items }
    ensures size { length items.new.items + start ≡ length items.old.items + result }
    ensures room { length items.new.items < vec_capacity items.new }
    ensures capacity { vec_capacity items.new ≡ vec_capacity items.old }
{
    if items.len() < items.capacity() {
        return start;
    }
    let size = items.len() - start;
    items.copy_within(start.., 0);
    items.truncate(size);
    0
}
