//! A room of a fixed size that keeps the bytes that fit it.
ghost use Rattle.std.specs.Prelude.{◌≡◌, ◌≤◌, vec_len, vec_capacity};

/// The bytes that fit the room, and whether some didn't.
#[derive(Drop)]
pub struct Kept {
    bytes: Vec<u8>,
    room: usize,
    full: bool,
    ghost within: { vec_len bytes ≤ room },
    ghost enough: { room ≤ vec_capacity bytes },
}

impl Kept {
    ghost use Rattle.std.specs.Prelude.{◌≡◌, ◌≤◌, vec_len, vec_capacity, [], Some};
    ghost use Rattle.mz_base.specs.Kept.{told_by, Keeps};
    ghost use Rattle.mz_base.specs.Told.{Gains};

    /// An empty room, as large as the vector's capacity.
    pub fn new(room: Vec<u8>) -> Kept
        requires { vec_len room ≡ 0 }
        ensures room { result.room ≡ vec_capacity room }
        ensures told { told_by result ≡ Some [] }
    {
        Kept {
            room: room.capacity(),
            bytes: room,
            full: false,
        }
    }

    /// Keeps the bytes that fit. It takes no memory.
    pub fn keep(&mut self, came: &[u8])
        ensures keeps { Keeps self.old self.new came.now }
        ensures gains { Gains (told_by self.old) (told_by self.new) came.now }
    {
        let fits = came.len().min(self.room - self.bytes.len());
        // The room has been there from the start, so this takes no memory and doesn't fail.
        let _ = self.bytes.extend_from_slice(&came[..fits]);
        self.full = self.full || fits < came.len();
    }

    /// The bytes that it keeps.
    pub fn bytes(&self) -> &[u8]
        ensures { result.now ≡ self.now.bytes.items }
    {
        &self.bytes
    }
}
