// The tape of a screen, as definitions and laws: what its pairs are made of. The functions that write it stand in `items` and `writer`.
#![tactic(auto)]

ghost use Rattle.std.specs.Prelude.{◌≡◌, ◌-◌, ◌*◌, ◌≤◌};
ghost use Rattle.tape.specs.Channel.{number_of_channel, Names};

// Two values without parity bit, and how many columns they lead on. A control pair, its first value below 20h, is sent twice.
#[derive(Clone, Copy)]
pub struct Item {
    pub first: u8,
    pub second: u8,
    pub columns: usize,
}

// The channel that a tape is for.
#[derive(Clone, Copy, Debug, PartialEq, Eq)]
pub enum Channel {
    One,
    Two,
}

// A number that is no channel's.
#[derive(Clone, Copy, Debug, PartialEq, Eq)]
pub struct NoChannel;

impl TryFrom<u8> for Channel {
    type Error = NoChannel;

    ghost try_from_gives = { Names };

    fn try_from(number: u8) -> Result<Channel, NoChannel> {
        match number {
            1 => Ok(Channel::One),
            2 => Ok(Channel::Two),
            _ => Err(NoChannel),
        }
    }
}

impl From<Channel> for u8 {
    ghost from_gives = { λ channel number. number ≡ number_of_channel channel };

    fn from(channel: Channel) -> u8 {
        match channel {
            Channel::One => 1,
            Channel::Two => 2,
        }
    }
}

impl Channel {
    // What the first value of a control pair has more on this channel than on channel 1.
    pub fn offset(self) -> u8
        ensures value { result ≡ (number_of_channel self - 1) * 8 }
        ensures bound { result ≤ 8 }
    {
        match self {
            Channel::One => 0,
            Channel::Two => 8,
        }
    }
}
