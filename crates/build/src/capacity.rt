// Whether a buffer has room for the image of all names of a list.
ghost use Rattle.std.specs.Prelude.{◌≡◌, true, ◌≤◌, length};
ghost use Rattle.build.specs.Steps.Capacity.{Capacity};

use super::needs::for_list;
use image::Mode;

// Has the buffer room for an image of all names? False for an empty list.
pub(crate) fn has_capacity(mode: Mode, ends: &[u64], ids: &[u32], room: usize) -> bool
    requires { length ends.now ≤ length ids.now }
    ensures { result ≡ true → Capacity mode ends.now ids.now room }
{
    let n = ends.len();
    if n == 0 {
        return false;
    }
    let needs = for_list(mode, ends[n - 1], &ids[..n]);
    if (room as u64) < needs.bytes {
        return false;
    }
    if 4294967295 < needs.bytes {
        return false;
    }
    true
}
