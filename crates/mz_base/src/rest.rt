//! Bytes that are given from the front, part by part.
ghost use Rattle.std.specs.Prelude.{◌≡◌, ◌<◌, ◌≤◌, vec_len, length, take, drop, min};

/// Bytes of which the first `at` have been given.
#[derive(Drop)]
pub struct Rest {
    bytes: Vec<u8>,
    at: usize,
    ghost within: { at ≤ vec_len bytes },
}

impl Rest {
    ghost use Rattle.mz_base.specs.Rest.{rest_of};

    /// All of them are still to come.
    pub fn new(bytes: Vec<u8>) -> Rest
        ensures { rest_of result ≡ bytes.items }
    {
        Rest { bytes, at: 0 }
    }

    /// Puts the next bytes into the front of the room, at most `most` of them, and says how many.
    pub fn give(&mut self, room: &mut [u8], most: usize) -> usize
        requires { 0 < most }
        ensures count { result ≡ min (min (length (rest_of self.old)) (length room.old)) most }
        ensures bytes { take result room.new ≡ take result (rest_of self.old) }
        ensures rest { rest_of self.new ≡ drop result (rest_of self.old) }
    {
        let count = (self.bytes.len() - self.at).min(room.len()).min(most);
        room[..count].copy_from_slice(&self.bytes[self.at..self.at + count]);
        self.at += count;
        count
    }
}
