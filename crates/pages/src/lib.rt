// Text on its way to standard output: it waits in a buffer and goes out in blocks.
#![tactic(auto)]

ghost use Rattle.std.specs.Prelude.{◌≡◌, [], OnOk, OnErr};

use std::io;
use std::marker::Model;

// The buffer, and how much of it waits. A clause sees what waits.
#[derive(Drop)]
pub struct Page {
    bytes: [u8; 65536],
    waiting: usize,
}

impl Model for Page {
    ghost use Rattle.std.specs.Prelude.{ℕ, ◌≤◌, List, take};

    ghost Value = { List ℕ };

    ghost view = { λ page. take page.waiting page.bytes };

    ghost invariant = { λ page. page.waiting ≤ 65536 };
}

impl Page {
    pub fn new() -> Page
        ensures { result ≡ [] }
    {
        Page {
            bytes: [0u8; 65536],
            waiting: 0,
        }
    }

    // What waits goes out; where it can't, it goes on waiting.
    pub fn flush(&mut self, rt: &impl Print) -> io::Result<()>
        ensures ok { OnOk result (self.new ≡ []) }
        ensures err { OnErr result (self.new ≡ self.old) }
    {
        rt.write_all(&self.bytes[..self.waiting])?;
        self.waiting = 0;
        Ok(())
    }

    // A line is added by `write`, which gets the buffer and the place where text may go, and answers where it ended; none where it
    // put nothing. Before it, where fewer than 32 bytes are left, what waits goes out; where that can't, nothing is added.
    pub fn add<F: FnOnce(&mut [u8], usize) -> Option<usize>>(
        &mut self,
        rt: &impl Print,
        write: F,
    ) -> io::Result<()>
        requires { F.IsAlwaysCallable write }
        ensures { OnErr result (self.new ≡ self.old) }
    {
        if self.bytes.len() - self.waiting < 32 {
            self.flush(rt)?;
        }
        let end = write(&mut self.bytes, self.waiting).unwrap_or(self.waiting);
        if end <= self.bytes.len() {
            self.waiting = end;
        }
        Ok(())
    }
}
