// Frames of work memory: a stack of what waits, the newest last.
ghost use Rattle.std.specs.Prelude.{◌≡◌, ◌+◌, ◌*◌, ◌≤◌, ◌<◌, length};
ghost use Rattle.language.specs.Sizes.{WORK};
ghost use Rattle.layout.specs.Frames.{FRAMES, SIZES, frame_word, frame_size, frame_mark, put_frame, put_phase};

use crate::FRAMES_AT;

// The words of a frame: a node's row, its phase, the first slot that it sees, and how many with a mark.
pub const NODE: usize = 0;

pub const PHASE: usize = 1;

pub const BASE: usize = 2;

pub const MARK: usize = 3;

// Word k of a frame.
pub fn word(work: &[u32], height: usize, k: usize) -> u32
    requires { (WORK ≤ length work.now) × (height < FRAMES) × (k < 4) }
    ensures { result ≡ frame_word work.now height k }
{
    work[FRAMES_AT + 4 * height + k]
}

// The same, for a word that names a row or a slot, or counts something.
pub fn link(work: &[u32], height: usize, k: usize) -> usize
    requires { (WORK ≤ length work.now) × (height < FRAMES) × (k < 4) }
    ensures { result ≡ frame_word work.now height k }
{
    word(work, height, k) as usize
}

// A size and a mark share a word.
const SIZES: u32 = 4096;

// How many slots the frame sees.
pub fn size(work: &[u32], height: usize) -> usize
    requires { (WORK ≤ length work.now) × (height < FRAMES) }
    ensures { result ≡ frame_size work.now height }
{
    (word(work, height, MARK) % SIZES) as usize
}

pub fn mark(work: &[u32], height: usize) -> usize
    requires { (WORK ≤ length work.now) × (height < FRAMES) }
    ensures { result ≡ frame_mark work.now height }
{
    (word(work, height, MARK) / SIZES) as usize
}

#[tactic(auto, unfolding(crate::specs::Frames::put_frame))]
pub fn put(
    work: &mut [u32],
    height: usize,
    node: usize,
    phase: u32,
    base: usize,
    size: usize,
    mark: usize,
)
    requires { (WORK ≤ length work.old) × (height < FRAMES) × (node ≤ WORK) × (base ≤ WORK) × (size < SIZES)
        × (mark ≤ WORK) }
    ensures { work.new ≡ put_frame work.old height node phase base size mark }
{
    let at = FRAMES_AT + 4 * height;
    work[at] = node as u32;
    work[at + PHASE] = phase;
    work[at + BASE] = base as u32;
    work[at + MARK] = SIZES * (mark as u32) + size as u32;
}

// The frame waits for another part.
#[tactic(auto, unfolding(crate::specs::Frames::put_phase))]
pub fn turn(work: &mut [u32], height: usize, phase: u32)
    requires { (WORK ≤ length work.old) × (height < FRAMES) }
    ensures { work.new ≡ put_phase work.old height phase }
{
    work[FRAMES_AT + 4 * height + PHASE] = phase;
}
