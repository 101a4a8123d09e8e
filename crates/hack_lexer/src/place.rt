// The place of an index.
ghost use Rattle.std.specs.Prelude.{◌≡◌, ◌≤◌, ◌<◌, ◌^◌, length};
ghost use Rattle.hack_types.specs.Places.{place_of};

use hack_types::Place;

// The place of the byte at this index of a file.
pub(crate) fn place_of(bytes: &[u8], index: usize) -> Place
    requires inside { index ≤ length bytes.now }
    requires small { length bytes.now < 2 ^ 31 }
    ensures { result ≡ place_of bytes.now index }
{
    Place::START.behind(&bytes[..index])
}
