//! Lists of locations that become one list. Only the shorter of two lists moves far.

ghost use Rattle.std.specs.Prelude.{◌≡◌, ◌≤◌, ◌++◌, drop, length, IfOk};

use protox_descriptor::descriptor::source_code_info::Location;
use protox_descriptor::values::Items;
use std::alloc::AllocError;

// Both lists, the first one moved in front of the other.
fn put_in_front(front: Vec<Location>, back: Vec<Location>) -> Result<Vec<Location>, AllocError>
    ensures { IfOk result (λ all. all.items ≡ front.items ++ back.items) }
{
    let count = front.len();
    let mut moved = front;
    let mut all = back;
    all.append(&mut moved)?;
    all.rotate_right(count);
    Ok(all)
}

/// Both lists, one after the other.
pub(crate) fn joined(
    front: Items<Location>,
    back: Items<Location>,
) -> Result<Items<Location>, AllocError>
    ensures { IfOk result (λ all. all ≡ front ++ back) }
{
    let mut all = front.into_vec();
    let mut more = back.into_vec();
    if all.len() < more.len() {
        return Ok(Items::from_vec(put_in_front(all, more)?));
    }
    all.append(&mut more)?;
    Ok(Items::from_vec(all))
}

// The list with these locations in place of its first ones, of which it has as many.
fn replaced(front: Items<Location>, locations: Items<Location>) -> Items<Location>
    requires { length front ≤ length locations }
    ensures { result ≡ front ++ drop (length front) locations }
{
    let mut first = front.into_vec();
    let mut all = locations.into_vec();
    let (places, _) = all.split_at_mut(first.len());
    places.swap_with_slice(&mut first);
    Items::from_vec(all)
}

// The locations behind the first `count`, moved to the front of their list.
fn behind(locations: Items<Location>, count: usize) -> Items<Location>
    ensures { result ≡ drop count locations }
{
    let mut all = locations.into_vec();
    let len = all.len();
    let gone = count.min(len);
    all.rotate_left(gone);
    all.truncate(len - gone);
    Items::from_vec(all)
}

// The list with these locations in place of the first `reserved`, of which there are fewer.
fn with_more(
    front: Items<Location>,
    locations: Items<Location>,
    reserved: usize,
) -> Result<Items<Location>, AllocError>
    requires more { reserved ≤ length front }
    requires reserved { reserved ≤ length locations }
    ensures { IfOk result (λ all. all ≡ front ++ drop reserved locations) }
{
    let mut first = front.into_vec();
    let last = first.split_off(first.len() - reserved)?;
    let all = replaced(Items::from_vec(last), locations);
    Ok(Items::from_vec(put_in_front(first, all.into_vec())?))
}

/// The list with these locations in place of the first `reserved`. What stays moves once at most.
pub(crate) fn fronted(
    front: Items<Location>,
    locations: Items<Location>,
    reserved: usize,
) -> Result<Items<Location>, AllocError>
    ensures { IfOk result (λ all. all ≡ front ++ drop reserved locations) }
{
    if locations.len() < reserved {
        return Ok(front);
    }
    let count = front.len();
    if reserved < count {
        return with_more(front, locations, reserved);
    }
    Ok(replaced(front, behind(locations, reserved - count)))
}

/// The locations, without the room that none takes.
pub(crate) fn trimmed(mut locations: Items<Location>) -> Items<Location>
    ensures { result ≡ locations }
{
    locations.shrink_to_fit();
    locations
}
