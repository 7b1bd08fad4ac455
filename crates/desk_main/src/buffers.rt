// The three buffers, and the calls on what is lent of them.
use crate::line::{Buffer, Call, Lent};
use crate::song::SONG;
use desk::Refusal;

// Each buffer has a byte more than the desk asks for, so that a call can be lent one too many.
#[derive(Drop)]
pub struct Buffers {
    pub desk: [u8; 1985],
    pub log: [u8; 48001],
    pub tray: [u8; 31745],
    pub lent: Lent,
}

fn store(buffer: &mut [u8], at: usize, byte: u8) {
    if let Some(place) = buffer.get_mut(at) {
        *place = byte;
    }
}

// The first n bytes of a buffer, or all of it.
fn lend(buffer: &mut [u8], n: usize) -> &mut [u8] {
    let n = n.min(buffer.len());
    &mut buffer[..n]
}

// As many pairs of the song, from its first.
fn take_many(desk: &mut [u8], log: &mut [u8], tray: &mut [u8], n: u32) -> Result<u16, Refusal> {
    let mut answer = Ok(0);
    for pair in SONG.iter().cycle().take(n as usize) {
        let [first, second] = pair.to_be_bytes();
        answer = desk::take(desk, log, tray, first, second);
    }
    answer
}

impl Buffers {
    // As much of them is lent as the desk asks for.
    pub fn zeros() -> Buffers {
        Buffers {
            desk: [0; 1985],
            log: [0; 48001],
            tray: [0; 31745],
            lent: Lent {
                desk: 1984,
                log: 48000,
                tray: 31744,
            },
        }
    }

    pub fn poke(&mut self, buffer: Buffer, at: usize, byte: u8) {
        match buffer {
            Buffer::Desk => store(&mut self.desk, at, byte),
            Buffer::Log => store(&mut self.log, at, byte),
            Buffer::Tray => store(&mut self.tray, at, byte),
        }
    }

    // What is lent of the desk.
    pub fn desk(&self) -> &[u8] {
        let n = self.lent.desk.min(self.desk.len());
        &self.desk[..n]
    }

    pub fn answer(&mut self, call: Call) -> Result<u16, Refusal> {
        let Buffers {
            desk,
            log,
            tray,
            lent,
        } = self;
        let desk = lend(desk, lent.desk);
        let log = lend(log, lent.log);
        let tray = lend(tray, lent.tray);
        match call {
            Call::Open => desk::open(desk, log, tray),
            Call::Take(first, second) => desk::take(desk, log, tray, first, second),
            Call::Select(channel) => desk::select(desk, log, tray, channel),
            Call::Back(k) => desk::back(desk, log, tray, k),
            Call::Many(n) => take_many(desk, log, tray, n),
            Call::Row(number) => desk::row(desk, number),
        }
    }
}
