// Runs of parts: bytes that are the parts of one width, one behind the other, each of them tested or made into another.
ghost use Rattle.std.specs.Prelude.{◌≡◌, ◌*◌, ◌≤◌, ◌<◌, ℕ, Bool, List, map, length};
ghost use Rattle.area.specs.Parts.{parts, join, all};

// Whether each of the first n parts passes.
#[inline]
pub fn all_parts<F: Fn(&[u8]) -> bool>(bytes: &[u8], width: usize, n: usize, test: F) -> bool
    requires width { 0 < width }
    requires long { width * n ≤ length bytes.now }
    requires callable { (part : _) → length part.now ≡ width → F.pre test part }
    ensures { (t : List ℕ → Bool) →
        ((part : _) (r : Bool) → length part.now ≡ width → F.post test part r → r ≡ t part.now) →
        result ≡ all t (parts width n bytes.now) }
{
    bytes[..width * n].chunks_exact(width).all(test)
}

// Makes each of the first n parts into one of another width; these fill the other bytes.
#[inline]
pub fn make_parts<F: Fn(&[u8], &mut [u8])>(
    from: &[u8],
    width: usize,
    to: &mut [u8],
    made: usize,
    n: usize,
    make: F,
)
    requires long { width * n ≤ length from.now }
    requires room { length to.old ≡ made * n }
    requires callable { (part into : _) →
        length part.now ≡ width → length into.now ≡ made → F.pre make part into }
    ensures { (f : List ℕ → List ℕ) →
        ((part into out : _) → length part.now ≡ width → length into.now ≡ made →
        F.post make part into tt out → out.now ≡ f part.now) →
        to.new ≡ join (map f (parts width n from.now)) }
{
    for i in 0..n {
        let read = width * i;
        let written = made * i;
        make(&from[read..read + width], &mut to[written..written + made]);
    }
}
