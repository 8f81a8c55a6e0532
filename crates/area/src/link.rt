// A link's ten bytes: its oldest frame, its room, a frame less and a frame more.
ghost use Rattle.std.specs.Prelude.{◌≡◌, ◌<◌, length, Some};
ghost use mathlib.Core.List.{◌∷◌, [], tail, ◌++◌};
ghost use Rattle.area.specs.Sizes.{link_size};
ghost use Rattle.area.specs.Link.{frames_of, link_of, IsLink};
ghost use Rattle.area.specs.Lookup.{oldest_of, room_of};

use crate::DEPTH;

#[tactic(auto, using(crate::proofs::Links::oldest_none, crate::proofs::Links::oldest_some))]
pub fn oldest_in(link: &[u8]) -> Option<u16>
    requires { length link.now ≡ link_size }
    ensures { result ≡ oldest_of (frames_of link.now) }
{
    if link[0] == 0 {
        None
    } else {
        Some(record::word_at(link, 2))
    }
}

// Behind how many frames one more goes, if there is room for it.
#[tactic(auto, using(crate::proofs::Links::room_told))]
pub fn room_in(link: &[u8]) -> Option<usize>
    requires { length link.now ≡ link_size }
    ensures { result ≡ room_of (frames_of link.now) }
{
    let n = link[0] as usize;
    (n < DEPTH).then_some(n)
}

// A link without its oldest frame.
pub fn drop_oldest(link: &mut [u8])
    requires { IsLink link.old × (0 < length (frames_of link.old)) }
    ensures { link.new ≡ link_of (tail (frames_of link.old)) }
{
    let rest = [
        link[0] - 1,
        0,
        link[4],
        link[5],
        link[6],
        link[7],
        link[8],
        link[9],
        0,
        0,
    ];
    byte_runs::copy(&rest, link);
}

// A link with one frame more, behind as many as `room_in` said.
pub fn append(link: &mut [u8], behind: usize, frame: u16)
    requires { IsLink link.old × (room_of (frames_of link.old) ≡ Some behind) }
    ensures { link.new ≡ link_of (frames_of link.old ++ (frame ∷ [])) }
{
    let at = 2 + 2 * behind;
    link[0] = link[0] + 1;
    link[at] = (frame % 256) as u8;
    link[at + 1] = (frame / 256) as u8;
}
