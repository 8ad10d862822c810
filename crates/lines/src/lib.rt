// Lines out of chunks: the answer to each line of an input, in its turn, however the input is cut.
// `pipe` feeds it what it reads.
#![tactic(auto)]

ghost use Rattle.std.specs.Prelude.{ℕ, List, ◌≡◌};
ghost use Rattle.frame.specs.Frame.{answer_bytes, left_with};
ghost use Rattle.lines.specs.Answering.{Answering};
ghost use Rattle.lines.specs.Held.{line_of, fresh, Feeds, Finishes};
ghost use Rattle.lines.specs.Enough.{frames_answering};

// What answers a line, by eleven bytes, for which the line's first N bytes are enough. They are
// written at the front of a space that has room for them.
pub trait Answers<const N: usize> {
    ghost bytes: { List ℕ → List ℕ };

    fn answer(line: &[u8], space: &mut [u8])
        ensures { space.new ≡ left_with (bytes line.now) space.old };

    ghost laws: { Answering N bytes };
}

// The bytes of an answer.
const ANSWER: usize = 11;

// The line begun and not ended yet: its first bytes, and how many they are. What is stated of `feed` and
// `finish` is of every value, so the count has no invariant; and it is copied, as an `ArrayVec` is not.
#[derive(Clone, Copy)]
pub struct Held<const N: usize> {
    held: [u8; N],
    count: usize,
}

// How many bytes of a chunk were read, and how many bytes of answers stand at the front of the space.
#[derive(Clone, Copy)]
pub struct Part {
    pub read: usize,
    pub written: usize,
}

impl<const N: usize> Held<N> {
    // No line is begun.
    pub fn new() -> Held<N>
        ensures { result ≡ fresh N }
    {
        Held {
            held: [0; N],
            count: 0,
        }
    }

    // The bytes that are held.
    fn line(&self) -> &[u8]
        ensures { result.now ≡ line_of self.now }
    {
        self.held.get(..self.count).unwrap_or(&self.held)
    }

    // Reads a chunk and answers each line that ends in it. It stops before a newline whose answer
    // has no room in the space; the rest of the chunk is then fed again with the space emptied.
    pub fn feed_to<A: Answers<N>>(&mut self, chunk: &[u8], space: &mut [u8]) -> Part
        ensures { Feeds A.bytes self.old chunk.now space.old self.new result.read result.written space.new }
    {
        // beside the loop, since in memory each byte would wait for the one before it
        let mut count = self.count;
        let mut written: usize = 0;
        for (read, b) in chunk.iter().enumerate() {
            if *b != b'\n' {
                if count < N {
                    self.held[count] = *b;
                    count += 1;
                }
                continue;
            }
            self.count = count;
            let full = space.len() - written < ANSWER;
            if full {
                return Part { read, written };
            }
            A::answer(self.line(), &mut space[written..]);
            written += ANSWER;
            count = 0;
        }
        self.count = count;
        Part {
            read: chunk.len(),
            written,
        }
    }

    // At the end of the input: answers the line begun, where it is not empty. Returns how many
    // bytes the answer takes, 11 or 0; in a space of fewer nothing is written.
    pub fn finish_to<A: Answers<N>>(&self, space: &mut [u8]) -> usize
        ensures { Finishes A.bytes self.now space.old result space.new }
    {
        let line = self.line();
        if line.is_empty() {
            return 0;
        }
        A::answer(line, space);
        ANSWER
    }
}

// Frames. One has 18 bytes, so the nineteenth says that a line is malformed, whatever follows.
pub struct Frames;

pub const KEPT: usize = 19;

impl Answers<KEPT> for Frames {
    ghost bytes = { answer_bytes };

    fn answer(line: &[u8], space: &mut [u8]) {
        frame::answer_number(line, space);
    }

    ghost laws = { frames_answering };
}

// The line begun of frames.
pub type Lines = Held<KEPT>;

// What has been done with a chunk of frames: the line then begun, and how much of what.
#[derive(Clone, Copy)]
pub struct Fed {
    pub lines: Lines,
    pub read: usize,
    pub written: usize,
}

impl Lines {
    // Feeds a chunk of frames.
    pub fn feed(self, chunk: &[u8], space: &mut [u8]) -> Fed
        ensures { Feeds answer_bytes self chunk.now space.old result.lines result.read result.written space.new }
    {
        let mut lines = self;
        let Part { read, written } = lines.feed_to::<Frames>(chunk, space);
        Fed {
            lines,
            read,
            written,
        }
    }

    // At the end of the frames.
    pub fn finish(self, space: &mut [u8]) -> usize
        ensures { Finishes answer_bytes self space.old result space.new }
    {
        self.finish_to::<Frames>(space)
    }
}
