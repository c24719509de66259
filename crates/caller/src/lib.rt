// A caller's view of the transform: it uses the part, and then, once the part is over, the two areas. Its own contract
// is plain and says both areas whole, so the resource in the transform's promise tells its callers all that they hold.
#![tactic(auto)]

ghost use Rattle.std.specs.Prelude.{◌≡◌, cond};
ghost use Rattle.range.specs.Signed.{entry};
ghost use Rattle.rules.specs.Areas.{in_first};
ghost use Rattle.caller.specs.Seen.{Seen};

// What is seen: the first entry of the part, and then the first entry of the second area for even m, of the first for
// odd m.
#[derive(Clone, Copy)]
pub struct Ends {
    pub total: i32,
    pub kept: i32,
}

// Entry 0 of the spectrum, and entry 0 of what stood before the last stage. Where the transform is refused: 0, and the
// first entry of that area as it was; 0 where it is empty. The areas are left as the transform leaves them.
pub fn look(m: u32, first: &mut [i32], second: &mut [i32]) -> Ends
    ensures { Seen m first.old second.old result first.new second.new }
{
    let part = transform::transform(m, first, second);
    let total = front(part);
    let kept = other(m, first, second);
    Ends { total, kept }
}

// The first entry, and 0 where there is none.
fn front(area: &[i32]) -> i32
    ensures { result ≡ entry area.now 0 }
{
    area.first().copied().unwrap_or(0)
}

// The first entry of the second area for even m, of the first for odd m.
fn other(m: u32, first: &[i32], second: &[i32]) -> i32
    ensures { result ≡ cond (in_first m) (entry second.now 0) (entry first.now 0) }
{
    if m % 2 == 0 {
        front(second)
    } else {
        front(first)
    }
}
