// The exports for C: each is the function of `loikrasun` that has its name. A slice passes as pointer and length.
// Each of the nine stays as it is: a function of its own beside that of `loikrasun`, since C calls it by this name.
#![tactic(auto)]

ghost use Rattle.std.specs.Prelude.{◌≡◌};
ghost use Rattle.wire.specs.Line.{line_at};
ghost use Rattle.wire.specs.Written.{write_line_of};
ghost use Rattle.standing.specs.Calls.{open_of, take_of, select_of, back_of};
ghost use Rattle.replay.specs.Captions.{caption_decoder};
ghost use Rattle.desk.specs.Looks.{row_of};
ghost use Rattle.writer.specs.Write.{write_tape_of};
ghost use Rattle.loikrasun.specs.Packed.{packed_of, given_line, ended, ended_of, filled, written_of, viewed_of};

#[unsafe(no_mangle)]
pub extern "C" fn loikrasun_open(desk: &mut [u8], log: &mut [u8], tray: &mut [u8]) -> u32
    ensures { ended result desk.new log.new tray.new
        ≡ ended_of (open_of caption_decoder desk.old log.old tray.old) }
{
    loikrasun::loikrasun_open(desk, log, tray)
}

#[unsafe(no_mangle)]
pub extern "C" fn loikrasun_take(
    desk: &mut [u8],
    log: &mut [u8],
    tray: &mut [u8],
    first: u8,
    second: u8,
) -> u32
    ensures { ended result desk.new log.new tray.new
        ≡ ended_of (take_of caption_decoder desk.old log.old tray.old first second) }
{
    loikrasun::loikrasun_take(desk, log, tray, first, second)
}

#[unsafe(no_mangle)]
pub extern "C" fn loikrasun_select(
    desk: &mut [u8],
    log: &mut [u8],
    tray: &mut [u8],
    channel: u8,
) -> u32
    ensures { ended result desk.new log.new tray.new
        ≡ ended_of (select_of caption_decoder desk.old log.old tray.old channel) }
{
    loikrasun::loikrasun_select(desk, log, tray, channel)
}

#[unsafe(no_mangle)]
pub extern "C" fn loikrasun_back(desk: &mut [u8], log: &mut [u8], tray: &mut [u8], k: u32) -> u32
    ensures { ended result desk.new log.new tray.new
        ≡ ended_of (back_of caption_decoder desk.old log.old tray.old k) }
{
    loikrasun::loikrasun_back(desk, log, tray, k)
}

#[unsafe(no_mangle)]
pub extern "C" fn loikrasun_row(desk: &[u8], row: u8) -> u32
    ensures { result ≡ packed_of (row_of desk.now row) }
{
    loikrasun::loikrasun_row(desk, row)
}

#[unsafe(no_mangle)]
pub extern "C" fn loikrasun_view(desk: &[u8], out: &mut [u8]) -> u32
    ensures { filled result out.new ≡ viewed_of desk.now out.old }
{
    loikrasun::loikrasun_view(desk, out)
}

#[unsafe(no_mangle)]
pub extern "C" fn loikrasun_line_write(out: &mut [u8], first: u8, second: u8) -> u32
    ensures { filled result out.new ≡ written_of (write_line_of out.old first second) }
{
    loikrasun::loikrasun_line_write(out, first, second)
}

#[unsafe(no_mangle)]
pub extern "C" fn loikrasun_line_read(reel: &[u8]) -> u32
    ensures { result ≡ packed_of (given_line (line_at reel.now 0)) }
{
    loikrasun::loikrasun_line_read(reel)
}

#[unsafe(no_mangle)]
pub extern "C" fn loikrasun_tape(memory: &[u8], channel: u8, out: &mut [u8]) -> u32
    ensures { filled result out.new ≡ written_of (write_tape_of memory.now channel out.old) }
{
    loikrasun::loikrasun_tape(memory, channel, out)
}
