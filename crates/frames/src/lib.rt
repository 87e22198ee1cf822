// Frames of a frame list found, and the bytes of a question.
#![tactic(auto)]

ghost use Rattle.std.specs.Prelude.{◌≡◌, List, [], ℕ, ◌≤◌, ◌<◌, length, get_or};
ghost use Rattle.frames.specs.Asks.{Indexed, Asks};

// The frame at an index of a frame list.
pub fn frame_at(list: &[u8], index: usize) -> &[u8]
    requires { Indexed list.now index }
    ensures { (x : Indexed list.now index) → result.now ≡ get_or x.frames index [] }
{
    let mut rest = list;
    for _ in 0..index {
        let size = usize::from(rest[0]);
        rest = &rest[size + 1..];
    }
    let size = usize::from(rest[0]);
    &rest[1..size + 1]
}

// The bytes of the question at an index of a frame list that has k bytes.
pub fn question_at(list: &[u8], k: usize, index: usize) -> &[u8]
    requires { (k ≤ length list.now) × ((q : List ℕ) × Asks list.now k index q) }
    ensures { (q : List ℕ) → Asks list.now k index q → result.now ≡ q }
{
    let frame = frame_at(&list[..k], index);
    &frame[1..]
}
