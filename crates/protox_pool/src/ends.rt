//! Where the numbers of locations end.

ghost use Rattle.std.specs.Prelude.{◌≡◌, ◌≤◌, length};
ghost use Rattle.protox_pool.specs.inner.Ends.{start_at};

/// Where the numbers of a path end in the list, and those of the span behind it. They begin where
/// those of the location before end. `comments` counts the locations with comments up to this one, if
/// it has some, and is else zero.
#[derive(Clone, Copy)]
pub(crate) struct Ends {
    pub(crate) path: u32,
    pub(crate) span: u32,
    pub(crate) comments: u32,
}

const _: () = prove!(size_of::<Ends>() == 12);

/// Where the numbers of the location at an index begin.
pub(crate) fn start_at(ends: &[Ends], index: usize) -> usize
    requires { index ≤ length ends.now }
    ensures { result ≡ start_at 0 ends.now index }
{
    if index == 0 {
        return 0;
    }
    ends[index - 1].span as usize
}
