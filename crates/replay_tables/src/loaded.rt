// The table of the last load.
use listing::TABLE_ROOM;
use numbers::{TABLE, check_table};
use refusals::Refusal;
use std::io::Read;
use streams::{NoRecord, read_counted};

#[derive(Drop)]
pub struct Loaded {
    // Begins with what the load was given.
    room: [u8; TABLE_ROOM],
    // Not after a load that was refused, nor before the first.
    serves: bool,
}

impl Default for Loaded {
    fn default() -> Self {
        Loaded {
            room: [0; TABLE_ROOM],
            serves: false,
        }
    }
}

impl Loaded {
    // How many bytes were read, and whether they are a table.
    pub fn load<R: Read>(
        &mut self,
        input: &mut R,
    ) -> Result<(usize, Result<(), Refusal>), NoRecord> {
        let count = read_counted(input, &mut self.room)?;
        let loaded = check_table(&self.room[..count]);
        self.serves = loaded.is_ok();
        Ok((count, loaded))
    }

    // No bytes stand for T, which serves in its place.
    pub fn bytes(&self) -> &[u8] {
        if self.serves {
            &self.room[..TABLE]
        } else {
            b""
        }
    }
}
