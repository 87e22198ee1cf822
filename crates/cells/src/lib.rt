// Bytes of slices: read, copied, filled, joined as cuts and compared.
#![tactic(auto)]

ghost use Rattle.std.specs.Prelude.{◌≡◌, ◌++◌, ◌+◌, ◌-◌, ◌≤◌, ◌<◌, max, length, take, drop, replicate};
ghost use Rattle.std.proofs.Math.Seq.{paste};
ghost use Rattle.model.specs.Frames.{word};
ghost use Rattle.model.specs.Cut.{join, inside};
ghost use Rattle.cells.specs.Put.{put_of};

// The first cell of a row that is none, and of a bar that is not used.
pub const NONE: u8 = 255;

// The number of two bytes at a place, high byte first.
#[tactic(auto, using(crate::proofs::Parts::word_at), unfolding(model::specs::Frames::word))]
pub fn word(q: &[u8], at: usize) -> u16
    requires { at + 2 ≤ length q.now }
    ensures { result ≡ word (drop at q.now) }
{
    u16::from_be_bytes([q[at], q[at + 1]])
}

// The len cells of src from `from` on, copied to `at`.
pub fn copy(ws: &mut [u8], at: usize, src: &[u8], from: usize, len: usize)
    requires { (at + len ≤ length ws.old) × (from + len ≤ length src.now) }
    ensures { ws.new ≡ paste ws.old at (drop from src.now) len }
{
    // Cell by cell: eight that were just computed are then stored at once, which copy_from_slice doesn't come to.
    for i in 0..len {
        ws[at + i] = src[from + i];
    }
}

// All of `src`, copied into `dst` from `at` on.
// Not by copy_from_slice, which asks at run time whether the two overlap, and so the C library for its memmove.
pub fn put(src: &[u8], dst: &mut [u8], at: usize)
    requires { at + length src.now ≤ length dst.old }
    ensures { dst.new ≡ put_of dst.old at src.now }
{
    copy(dst, at, src, 0, src.len());
}

// The len cells from `from` on, copied to `to`.
pub fn shift(ws: &mut [u8], from: usize, to: usize, len: usize)
    requires { (from + len ≤ length ws.old) × (to + len ≤ length ws.old) }
    ensures { ws.new ≡ paste ws.old to (drop from ws.old) len }
{
    ws.copy_within(from..from + len, to);
}

// x in the len cells from at on.
pub fn fill(ws: &mut [u8], at: usize, len: usize, x: u8)
    requires { at + len ≤ length ws.old }
    ensures { ws.new ≡ paste ws.old at (replicate len x) len }
{
    ws[at..at + len].fill(x);
}

// The n cells at a place, and then 0.
pub fn cut_at(ws: &[u8], at: usize, n: usize) -> [u8; 8]
    requires { (n ≤ 8) × (at + n ≤ length ws.now) }
    ensures { (take n result ≡ take n (drop at ws.now)) × (drop n result ≡ replicate (8 - n) 0) × (length result ≡ 8) }
{
    let mut out = [0u8; 8];
    copy(&mut out, 0, ws, at, n);
    out
}

// Joined with the eight cells at a place: all are read before the first is written.
pub fn join_eight(acc: &mut [u8; 8], ws: &[u8], at: usize)
    requires { at + 8 ≤ length ws.now }
    ensures { acc.new ≡ join acc.old (take 8 (drop at ws.now)) }
{
    let mut t = [0u8; 8];
    for i in 0..8 {
        t[i] = acc[i].max(ws[at + i]);
    }
    copy(acc, 0, &t, 0, 8);
}

// Joined with the n cells at a place, one by one.
fn join_few(acc: &mut [u8; 8], ws: &[u8], at: usize, n: usize)
    requires { (n ≤ 8) × (at + n ≤ length ws.now) }
    ensures { take n acc.new ≡ join (take n acc.old) (take n (drop at ws.now)) }
{
    for i in 0..n {
        acc[i] = acc[i].max(ws[at + i]);
    }
}

// A cut joined with the row at a place. Eight cells at once where there are as many: those past n say nothing.
pub fn join_at(acc: &mut [u8; 8], ws: &[u8], at: usize, n: usize)
    requires { (n ≤ 8) × (at + n ≤ length ws.now) }
    ensures { take n acc.new ≡ join (take n acc.old) (take n (drop at ws.now)) }
{
    if ws.len() - at < 8 {
        join_few(acc, ws, at, n);
        return;
    }
    join_eight(acc, ws, at);
}

// Is a cut contained in another of as many stations?
pub fn inside(a: &[u8], b: &[u8]) -> bool
    requires { length a.now ≡ length b.now }
    ensures { result ≡ inside a.now b.now }
{
    // By the place of a count that is above, since the loop of `all` takes one step more at each count.
    a.iter().zip(b).position(|(x, y)| y < x).is_none()
}

// Is the cut at place i of one slice contained in the cut at place k of another?
pub fn contained(a: &[u8], i: usize, b: &[u8], k: usize, n: usize) -> bool
    requires { (i + n ≤ length a.now) × (k + n ≤ length b.now) }
    ensures { result ≡ inside (take n (drop i a.now)) (take n (drop k b.now)) }
{
    inside(&a[i..i + n], &b[k..k + n])
}
