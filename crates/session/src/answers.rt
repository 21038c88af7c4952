// What a command answers.
ghost use Rattle.std.specs.Prelude.{◌≡◌, length};

// What the line of a command that was done adds: nothing, numbers, a word, or the count of steps with a message and a word.
// Kept as numbers: they are no offsets, the line prints them. Words and messages are slices of the memory that was lent for them.
#[derive(Clone, Copy)]
pub(crate) enum Answer<'b> {
    Nothing,
    Number(usize),
    Pair(usize, usize),
    Word(&'b [u8]),
    Taken(u32, &'b [u8], &'b [u8]),
}

// Lent memory for the message and the word of an answer, of 1024 bytes each.
#[derive(Drop)]
pub(crate) struct Buffers<'b> {
    pub(crate) message: &'b mut [u8],
    pub(crate) word: &'b mut [u8],
    ghost message_room: { length message.now ≡ 1024 },
    ghost word_room: { length word.now ≡ 1024 },
}
